//! Programs and their printed texts.
ghost use Rattle.std.specs.Prelude.{◌<◌, ◌^◌, length};

use array_lang::parse;
use array_print::print;
use std::alloc::Global;
use std::test::Fail;

// Whether the program of a text is printed like this.
fn prints(alloc: Global, text: &[u8], expected: &[u8]) -> Result<bool, Fail>
    requires { length text.now < 2 ^ 32 }
{
    let program = parse(alloc, text)?;
    let printed = print(alloc, &program)?;
    Ok(printed.as_slice() == expected)
}

#[test]
fn needless_parentheses_go(rt: HostRuntime) -> Result<(), Fail> {
    let text = b"array a[4];a[(1+2)*3-(4-5)]=- (6);";
    let expected = b"array a[4];\na[(1 + 2) * 3 - (4 - 5)] = -6;\n";
    assert!(rt; prints(rt.alloc(), text.as_slice(), expected.as_slice())?);
    Ok(())
}

#[test]
fn an_empty_else_goes(rt: HostRuntime) -> Result<(), Fail> {
    let expected = b"if 1 {\n}\n";
    assert!(rt; prints(rt.alloc(), b"if 1{}else{}".as_slice(), expected.as_slice())?);
    Ok(())
}

#[test]
fn every_construct_has_its_lines(rt: HostRuntime) -> Result<(), Fail> {
    let text = b"array b[0008]; par{{b[0]=1<2;}{}} for i in -03..0 {if i==0{b[i]=1;}else{}}
        team j in 0..6 by 3{if (j<3)==1{}else{b[j]=7%(2*j);}}barrier{b[j]=b[j]-1-(1-j);}";
    assert!(rt; prints(rt.alloc(), text.as_slice(), EVERY_CONSTRUCT)?);
    Ok(())
}

const EVERY_CONSTRUCT: &[u8] = b"array b[8];
par {
  {
    b[0] = 1 < 2;
  }
  {
  }
}
for i in -3..0 {
  if i == 0 {
    b[i] = 1;
  }
}
team j in 0..6 by 3 {
  if (j < 3) == 1 {
  } else {
    b[j] = 7 % (2 * j);
  }
} barrier {
  b[j] = b[j] - 1 - (1 - j);
}
";
