//! Pictures of short journals, byte for byte.
use journal_picture::{Kind, Shape, svg_picture, text_picture};
use std::test::Fail;
use transfer_table::{Entry, Plan};

const FIRST_TEXT: &[u8] = b"    entry     0     1     2     3     4
            reg   req enter yield unreg
             h0  h0+1    h1    h1    h0
             s1    s1    s1    s1    s1
h0   base    s1    s1    s1    s1  base
h1   base  base  base    s1  base  base
unm     0     0     1     0     0     0
idl     1     1    !1     0     1     1

   req   met unmet guest  made  base
     1     1     0     1     3    s1 pool, line 3, home h0

  made stays sites  hart
     3     3     1  h0
     2     3     1  h1

reg registers a site, req requests harts, unreg unregisters the site
unm unmet wishes, idl idle harts, ! a child of the base has an unmet wish while a hart is idle
of sites: req requested harts, met and unmet wishes, guest most guests at once, made entries inside
of harts: made entries, stays with those in the base, sites visited, each once
legal 5
";

const NESTED_TEXT: &[u8] =
    b"    entry     0     1     2     3     4     5     6     7     8     9    10
            reg   req   reg   req enter   reg   req unreg unreg yield unreg
             h0  h0+1    h0  h0+1    h1    h1  h1+1    h1    h0    h1    h0
             s1    s1    s2    s2    s1    s3    s3    s3    s2    s1    s1
h0   base    s1    s1    s2    s2    s2    s2    s2    s2    s1    s1  base
h1   base  base  base  base  base    s1    s3    s3    s1    s1  base  base
unm     0     0     1     1     2     1     1     2     1     0     0     0
idl     1     1    !1    !1    !1     0     0     0     0     0     1     1

   req   met unmet guest  made  base
     1     1     0     1     5    s1 pool, line 4, home h0
     1     0     1     0     2      s2 team, line 6, home h0
     1     0     1     0     2      s3 pool, line 10, home h1

  made stays sites  hart
     6     5     2  h0
     5     5     2  h1

reg registers a site, req requests harts, unreg unregisters the site
unm unmet wishes, idl idle harts, ! a child of the base has an unmet wish while a hart is idle
of sites: req requested harts, met and unmet wishes, guest most guests at once, made entries inside
of harts: made entries, stays with those in the base, sites visited, each once
legal 11
";

const SKIPPED_TEXT: &[u8] = b"    entry     0     1     2     3 fault
            reg  skip  skip unreg
             h0    h0    h0    h0
             s1    s2    s3    s1
h0   base    s1    s1    s1  base
h1   base  base  base  base  base
unm     0     0     0     0     0
idl     1     1     1     1     1

   req   met unmet guest  made  base
     0     0     0     0     3    s1 pool, line 4, home h0
     0     0     0     0     0      s2 team, line 6, skipped
     0     0     0     0     0      s3 pool, line 10, skipped

  made stays sites  hart
     4     3     1  h0
     0     1     0  h1

reg registers a site, req requests harts, unreg unregisters the site
unm unmet wishes, idl idle harts, ! a child of the base has an unmet wish while a hart is idle
of sites: req requested harts, met and unmet wishes, guest most guests at once, made entries inside
of harts: made entries, stays with those in the base, sites visited, each once
at the end: s2 was skipped, but the program enters it
illegal: entry 4, s2 is skipped
";

const PASSED_TEXT: &[u8] = b"    entry     0     1     2     3
            reg  skip  skip unreg
             h0    h0    h0    h0
             s1    s2    s3    s1
h0   base    s1    s1    s1  base
h1   base  base  base  base  base
unm     0     0     0     0     0
idl     1     1     1     1     1

   req   met unmet guest  made  base
     0     0     0     0     3    s1 pool, line 4, home h0
     0     0     0     0     0      s2 team, line 6, skipped
     0     0     0     0     0      s3 pool, line 10, skipped

  made stays sites  hart
     4     3     1  h0
     0     1     0  h1

reg registers a site, req requests harts, unreg unregisters the site
unm unmet wishes, idl idle harts, ! a child of the base has an unmet wish while a hart is idle
of sites: req requested harts, met and unmet wishes, guest most guests at once, made entries inside
of harts: made entries, stays with those in the base, sites visited, each once
legal 4
";

const FAULTY_TEXT: &[u8] = b"    entry     0     1     2 fault
            reg   req   reg
             h0  h0+1    h0
             s1    s1    s2
h0   base    s1    s1    s2
h1   base  base  base  base
unm     0     0     1     1
idl     1     1    !1    !1

   req   met unmet guest  made  base
     1     0     1     0     2    s1 pool, line 4, home h0, not ended
     0     0     0     0     0      s2 team, line 6, home h0, not ended
     0     0     0     0     0      s3 pool, line 10, not entered

  made stays sites  hart
     3     3     2  h0
     0     1     0  h1

reg registers a site, req requests harts, unreg unregisters the site
unm unmet wishes, idl idle harts, ! a child of the base has an unmet wish while a hart is idle
of sites: req requested harts, met and unmet wishes, guest most guests at once, made entries inside
of harts: made entries, stays with those in the base, sites visited, each once
entry 3: h1 register s3: the hart is in s0, not in s1
illegal: entry 3, owner is s0
";

const FIRST_SVG: &[u8] =
    b"<svg xmlns='http://www.w3.org/2000/svg' version='1.1' width='700' height='462' viewBox='0 0 700 462' font-family='Helvetica, Arial, sans-serif' font-size='11' text-anchor='middle'>
<rect width='100%' height='100%' fill='#ffffff'/>
<text x='16' y='30' font-size='19' font-weight='bold' text-anchor='start'>Lithe, harts 2, sites 1, entries 5</text>
<text x='56' y='72' text-anchor='start'>entries in order, not time</text>
<g text-anchor='start'>
<rect x='56' y='268' width='24' height='14' fill='#e9f3e4' stroke='#4f7a3a'><title>the program's body</title></rect>
<text x='88' y='279'>the program's body</text>
<rect x='216' y='268' width='24' height='14' fill='#e3e6e9' stroke='#9aa4ad'><title>an idle hart</title></rect>
<text x='248' y='279'>an idle hart</text>
<rect x='336' y='268' width='24' height='14' fill='#cfe3f8' stroke='#2c5d8f'><title>a site</title></rect>
<text x='368' y='279'>a site</text>
<rect x='416' y='268' width='24' height='14' fill='#cfe3f8' stroke-dasharray='4 2' stroke='#2c5d8f'><title>a site of phases</title></rect>
<text x='448' y='279'>a site of phases</text>
<rect x='556' y='268' width='24' height='14' fill='#f6b3b9' stroke='#b00020'><title>a missed wish</title></rect>
<text x='588' y='279'>a missed wish</text>
<text x='56' y='300'>higher and darker: deeper in the tree. a missed wish: a child of the base has an unmet wish while a hart is idle.</text>
<text x='56' y='318'>+1: the home requests a hart. 1 unmet: a wish that no hart met. skip: a site that isn't entered.</text>
</g>
<text x='28' y='150' font-size='13' font-weight='bold'>h0</text>
<text x='28' y='194' font-size='13' font-weight='bold'>h1</text>
<text x='28' y='219'>unmet</text>
<text x='28' y='233'>idle</text>
<path d='M128 116v88' stroke='#d5dade'/>
<text x='128' y='88'>0</text>
<text x='128' y='100'>reg</text>
<text x='128' y='112'>h0 s1</text>
<path d='M200 116v88' stroke='#d5dade'/>
<text x='200' y='88'>1</text>
<text x='200' y='100'>req</text>
<text x='200' y='112'>h0 s1</text>
<path d='M272 116v88' stroke='#d5dade'/>
<text x='272' y='88'>2</text>
<text x='272' y='100'>enter</text>
<text x='272' y='112'>h1 s1</text>
<path d='M344 116v88' stroke='#d5dade'/>
<text x='344' y='88'>3</text>
<text x='344' y='100'>yield</text>
<text x='344' y='112'>h1 s1</text>
<path d='M416 116v88' stroke='#d5dade'/>
<text x='416' y='88'>4</text>
<text x='416' y='100'>unreg</text>
<text x='416' y='112'>h0 s1</text>
<rect x='56' y='142' width='72' height='14' fill='#e9f3e4' stroke='#4f7a3a'><title>h0 in base, the program's body, from the start to entry 0</title></rect>
<text x='92' y='153'>base</text>
<rect x='128' y='136' width='288' height='14' fill='#cfe3f8' stroke='#2c5d8f'><title>h0 in s1, pool, line 3, from entry 0 to entry 4</title></rect>
<text x='272' y='147'>s1 pool</text>
<rect x='416' y='142' width='72' height='14' fill='#e9f3e4' stroke='#4f7a3a'><title>h0 in base, the program's body, from entry 4 to the end</title></rect>
<text x='452' y='153'>base</text>
<rect x='56' y='186' width='216' height='14' fill='#e3e6e9' stroke='#9aa4ad'><title>h1 in base, idle, from the start to entry 2</title></rect>
<text x='164' y='197'>base</text>
<rect x='272' y='180' width='72' height='14' fill='#cfe3f8' stroke='#2c5d8f'><title>h1 in s1, pool, line 3, from entry 2 to entry 3</title></rect>
<text x='308' y='191'>s1 pool</text>
<rect x='344' y='186' width='144' height='14' fill='#e3e6e9' stroke='#9aa4ad'><title>h1 in base, idle, from entry 3 to the end</title></rect>
<text x='416' y='197'>base</text>
<text x='200' y='122'>+1<title>entry 1: h0 request s1</title></text>
<text x='68' y='219'>0</text>
<text x='68' y='233'>1</text>
<text x='140' y='219'>0</text>
<text x='140' y='233'>1</text>
<rect x='200' y='208' width='72' height='14' fill='#f6b3b9' stroke='#b00020'><title>before entry 2: unmet 1, idle 1</title></rect>
<text x='212' y='219'>1</text>
<text x='212' y='233'>1</text>
<text x='284' y='219'>0</text>
<text x='284' y='233'>0</text>
<text x='356' y='219'>0</text>
<text x='356' y='233'>1</text>
<text x='428' y='219'>0</text>
<text x='428' y='233'>1</text>
<text y='350' font-weight='bold'><tspan x='86'>requested</tspan><tspan x='146'>met</tspan><tspan x='196'>unmet</tspan><tspan x='266'>most guests</tspan><tspan x='366'>entries inside</tspan><tspan x='426' text-anchor='start'>site</tspan></text>
<text y='368'><tspan x='86'>1</tspan><tspan x='146'>1</tspan><tspan x='196'>0</tspan><tspan x='266'>1</tspan><tspan x='366'>3</tspan><tspan x='426' text-anchor='start'>s1, pool, line 3, home h0</tspan></text>
<text y='404' font-weight='bold'><tspan x='86'>entries made</tspan><tspan x='166'>stays</tspan><tspan x='246'>sites visited</tspan><tspan x='306' text-anchor='start'>hart</tspan></text>
<text y='422'><tspan x='86'>3</tspan><tspan x='166'>3</tspan><tspan x='246'>1</tspan><tspan x='306' text-anchor='start'>h0</tspan></text>
<text y='440'><tspan x='86'>2</tspan><tspan x='166'>3</tspan><tspan x='246'>1</tspan><tspan x='306' text-anchor='start'>h1</tspan></text>
<text x='16' y='52' font-size='14' text-anchor='start'>legal 5
</text>
</svg>
";

const NESTED_SVG: &[u8] =
    b"<svg xmlns='http://www.w3.org/2000/svg' version='1.1' width='976' height='498' viewBox='0 0 976 498' font-family='Helvetica, Arial, sans-serif' font-size='11' text-anchor='middle'>
<rect width='100%' height='100%' fill='#ffffff'/>
<text x='16' y='30' font-size='19' font-weight='bold' text-anchor='start'>Lithe, harts 2, sites 3, entries 11</text>
<text x='56' y='72' text-anchor='start'>entries in order, not time</text>
<g text-anchor='start'>
<rect x='56' y='268' width='24' height='14' fill='#e9f3e4' stroke='#4f7a3a'><title>the program's body</title></rect>
<text x='88' y='279'>the program's body</text>
<rect x='216' y='268' width='24' height='14' fill='#e3e6e9' stroke='#9aa4ad'><title>an idle hart</title></rect>
<text x='248' y='279'>an idle hart</text>
<rect x='336' y='268' width='24' height='14' fill='#cfe3f8' stroke='#2c5d8f'><title>a site</title></rect>
<text x='368' y='279'>a site</text>
<rect x='416' y='268' width='24' height='14' fill='#cfe3f8' stroke-dasharray='4 2' stroke='#2c5d8f'><title>a site of phases</title></rect>
<text x='448' y='279'>a site of phases</text>
<rect x='556' y='268' width='24' height='14' fill='#f6b3b9' stroke='#b00020'><title>a missed wish</title></rect>
<text x='588' y='279'>a missed wish</text>
<text x='56' y='300'>higher and darker: deeper in the tree. a missed wish: a child of the base has an unmet wish while a hart is idle.</text>
<text x='56' y='318'>+1: the home requests a hart. 1 unmet: a wish that no hart met. skip: a site that isn't entered.</text>
</g>
<text x='28' y='150' font-size='13' font-weight='bold'>h0</text>
<text x='28' y='194' font-size='13' font-weight='bold'>h1</text>
<text x='28' y='219'>unmet</text>
<text x='28' y='233'>idle</text>
<path d='M128 116v88' stroke='#d5dade'/>
<text x='128' y='88'>0</text>
<text x='128' y='100'>reg</text>
<text x='128' y='112'>h0 s1</text>
<path d='M200 116v88' stroke='#d5dade'/>
<text x='200' y='88'>1</text>
<text x='200' y='100'>req</text>
<text x='200' y='112'>h0 s1</text>
<path d='M272 116v88' stroke='#d5dade'/>
<text x='272' y='88'>2</text>
<text x='272' y='100'>reg</text>
<text x='272' y='112'>h0 s2</text>
<path d='M344 116v88' stroke='#d5dade'/>
<text x='344' y='88'>3</text>
<text x='344' y='100'>req</text>
<text x='344' y='112'>h0 s2</text>
<path d='M416 116v88' stroke='#d5dade'/>
<text x='416' y='88'>4</text>
<text x='416' y='100'>enter</text>
<text x='416' y='112'>h1 s1</text>
<path d='M488 116v88' stroke='#d5dade'/>
<text x='488' y='88'>5</text>
<text x='488' y='100'>reg</text>
<text x='488' y='112'>h1 s3</text>
<path d='M560 116v88' stroke='#d5dade'/>
<text x='560' y='88'>6</text>
<text x='560' y='100'>req</text>
<text x='560' y='112'>h1 s3</text>
<path d='M632 116v88' stroke='#d5dade'/>
<text x='632' y='88'>7</text>
<text x='632' y='100'>unreg</text>
<text x='632' y='112'>h1 s3</text>
<path d='M704 116v88' stroke='#d5dade'/>
<text x='704' y='88'>8</text>
<text x='704' y='100'>unreg</text>
<text x='704' y='112'>h0 s2</text>
<path d='M776 116v88' stroke='#d5dade'/>
<text x='776' y='88'>9</text>
<text x='776' y='100'>yield</text>
<text x='776' y='112'>h1 s1</text>
<path d='M848 116v88' stroke='#d5dade'/>
<text x='848' y='88'>10</text>
<text x='848' y='100'>unreg</text>
<text x='848' y='112'>h0 s1</text>
<rect x='56' y='142' width='72' height='14' fill='#e9f3e4' stroke='#4f7a3a'><title>h0 in base, the program's body, from the start to entry 0</title></rect>
<text x='92' y='153'>base</text>
<rect x='128' y='136' width='144' height='14' fill='#cfe3f8' stroke='#2c5d8f'><title>h0 in s1, pool, line 4, from entry 0 to entry 2</title></rect>
<text x='200' y='147'>s1 pool</text>
<rect x='272' y='130' width='432' height='14' fill='#9fc8f0' stroke-dasharray='4 2' stroke='#2c5d8f'><title>h0 in s2, team, line 6, from entry 2 to entry 8</title></rect>
<text x='488' y='141'>s2 team</text>
<rect x='704' y='136' width='144' height='14' fill='#cfe3f8' stroke='#2c5d8f'><title>h0 in s1, pool, line 4, from entry 8 to entry 10</title></rect>
<text x='776' y='147'>s1 pool</text>
<rect x='848' y='142' width='72' height='14' fill='#e9f3e4' stroke='#4f7a3a'><title>h0 in base, the program's body, from entry 10 to the end</title></rect>
<text x='884' y='153'>base</text>
<rect x='56' y='186' width='360' height='14' fill='#e3e6e9' stroke='#9aa4ad'><title>h1 in base, idle, from the start to entry 4</title></rect>
<text x='236' y='197'>base</text>
<rect x='416' y='180' width='72' height='14' fill='#cfe3f8' stroke='#2c5d8f'><title>h1 in s1, pool, line 4, from entry 4 to entry 5</title></rect>
<text x='452' y='191'>s1 pool</text>
<rect x='488' y='174' width='144' height='14' fill='#9fc8f0' stroke='#2c5d8f'><title>h1 in s3, pool, line 10, from entry 5 to entry 7</title></rect>
<text x='560' y='185'>s3 pool</text>
<rect x='632' y='180' width='144' height='14' fill='#cfe3f8' stroke='#2c5d8f'><title>h1 in s1, pool, line 4, from entry 7 to entry 9</title></rect>
<text x='704' y='191'>s1 pool</text>
<rect x='776' y='186' width='144' height='14' fill='#e3e6e9' stroke='#9aa4ad'><title>h1 in base, idle, from entry 9 to the end</title></rect>
<text x='848' y='197'>base</text>
<text x='200' y='122'>+1<title>entry 1: h0 request s1</title></text>
<text x='344' y='122'>+1<title>entry 3: h0 request s2</title></text>
<text x='560' y='166'>+1<title>entry 6: h1 request s3</title></text>
<text x='632' y='166'>1 unmet<title>entry 7: h1 unregister s3</title></text>
<text x='704' y='122'>1 unmet<title>entry 8: h0 unregister s2</title></text>
<text x='68' y='219'>0</text>
<text x='68' y='233'>1</text>
<text x='140' y='219'>0</text>
<text x='140' y='233'>1</text>
<rect x='200' y='208' width='72' height='14' fill='#f6b3b9' stroke='#b00020'><title>before entry 2: unmet 1, idle 1</title></rect>
<text x='212' y='219'>1</text>
<text x='212' y='233'>1</text>
<rect x='272' y='208' width='72' height='14' fill='#f6b3b9' stroke='#b00020'><title>before entry 3: unmet 1, idle 1</title></rect>
<text x='284' y='219'>1</text>
<text x='284' y='233'>1</text>
<rect x='344' y='208' width='72' height='14' fill='#f6b3b9' stroke='#b00020'><title>before entry 4: unmet 2, idle 1</title></rect>
<text x='356' y='219'>2</text>
<text x='356' y='233'>1</text>
<text x='428' y='219'>1</text>
<text x='428' y='233'>0</text>
<text x='500' y='219'>1</text>
<text x='500' y='233'>0</text>
<text x='572' y='219'>2</text>
<text x='572' y='233'>0</text>
<text x='644' y='219'>1</text>
<text x='644' y='233'>0</text>
<text x='716' y='219'>0</text>
<text x='716' y='233'>0</text>
<text x='788' y='219'>0</text>
<text x='788' y='233'>1</text>
<text x='860' y='219'>0</text>
<text x='860' y='233'>1</text>
<text y='350' font-weight='bold'><tspan x='86'>requested</tspan><tspan x='146'>met</tspan><tspan x='196'>unmet</tspan><tspan x='266'>most guests</tspan><tspan x='366'>entries inside</tspan><tspan x='426' text-anchor='start'>site</tspan></text>
<text y='368'><tspan x='86'>1</tspan><tspan x='146'>1</tspan><tspan x='196'>0</tspan><tspan x='266'>1</tspan><tspan x='366'>5</tspan><tspan x='426' text-anchor='start'>s1, pool, line 4, home h0</tspan></text>
<text y='386'><tspan x='86'>1</tspan><tspan x='146'>0</tspan><tspan x='196'>1</tspan><tspan x='266'>0</tspan><tspan x='366'>2</tspan><tspan x='426' text-anchor='start'>s2, team, line 6, in s1, home h0</tspan></text>
<text y='404'><tspan x='86'>1</tspan><tspan x='146'>0</tspan><tspan x='196'>1</tspan><tspan x='266'>0</tspan><tspan x='366'>2</tspan><tspan x='426' text-anchor='start'>s3, pool, line 10, in s1, home h1</tspan></text>
<text y='440' font-weight='bold'><tspan x='86'>entries made</tspan><tspan x='166'>stays</tspan><tspan x='246'>sites visited</tspan><tspan x='306' text-anchor='start'>hart</tspan></text>
<text y='458'><tspan x='86'>6</tspan><tspan x='166'>5</tspan><tspan x='246'>2</tspan><tspan x='306' text-anchor='start'>h0</tspan></text>
<text y='476'><tspan x='86'>5</tspan><tspan x='166'>5</tspan><tspan x='246'>2</tspan><tspan x='306' text-anchor='start'>h1</tspan></text>
<text x='16' y='52' font-size='14' text-anchor='start'>legal 11
</text>
</svg>
";

const FAULTY_SVG: &[u8] =
    b"<svg xmlns='http://www.w3.org/2000/svg' version='1.1' width='700' height='498' viewBox='0 0 700 498' font-family='Helvetica, Arial, sans-serif' font-size='11' text-anchor='middle'>
<rect width='100%' height='100%' fill='#ffffff'/>
<text x='16' y='30' font-size='19' font-weight='bold' text-anchor='start'>Lithe, harts 2, sites 3, entries 3</text>
<text x='56' y='72' text-anchor='start'>entries in order, not time</text>
<g text-anchor='start'>
<rect x='56' y='268' width='24' height='14' fill='#e9f3e4' stroke='#4f7a3a'><title>the program's body</title></rect>
<text x='88' y='279'>the program's body</text>
<rect x='216' y='268' width='24' height='14' fill='#e3e6e9' stroke='#9aa4ad'><title>an idle hart</title></rect>
<text x='248' y='279'>an idle hart</text>
<rect x='336' y='268' width='24' height='14' fill='#cfe3f8' stroke='#2c5d8f'><title>a site</title></rect>
<text x='368' y='279'>a site</text>
<rect x='416' y='268' width='24' height='14' fill='#cfe3f8' stroke-dasharray='4 2' stroke='#2c5d8f'><title>a site of phases</title></rect>
<text x='448' y='279'>a site of phases</text>
<rect x='556' y='268' width='24' height='14' fill='#f6b3b9' stroke='#b00020'><title>a missed wish</title></rect>
<text x='588' y='279'>a missed wish</text>
<text x='56' y='300'>higher and darker: deeper in the tree. a missed wish: a child of the base has an unmet wish while a hart is idle.</text>
<text x='56' y='318'>+1: the home requests a hart. 1 unmet: a wish that no hart met. skip: a site that isn't entered.</text>
</g>
<text x='28' y='150' font-size='13' font-weight='bold'>h0</text>
<text x='28' y='194' font-size='13' font-weight='bold'>h1</text>
<text x='28' y='219'>unmet</text>
<text x='28' y='233'>idle</text>
<path d='M128 116v88' stroke='#d5dade'/>
<text x='128' y='88'>0</text>
<text x='128' y='100'>reg</text>
<text x='128' y='112'>h0 s1</text>
<path d='M200 116v88' stroke='#d5dade'/>
<text x='200' y='88'>1</text>
<text x='200' y='100'>req</text>
<text x='200' y='112'>h0 s1</text>
<path d='M272 116v88' stroke='#d5dade'/>
<text x='272' y='88'>2</text>
<text x='272' y='100'>reg</text>
<text x='272' y='112'>h0 s2</text>
<rect x='56' y='142' width='72' height='14' fill='#e9f3e4' stroke='#4f7a3a'><title>h0 in base, the program's body, from the start to entry 0</title></rect>
<text x='92' y='153'>base</text>
<rect x='128' y='136' width='144' height='14' fill='#cfe3f8' stroke='#2c5d8f'><title>h0 in s1, pool, line 4, from entry 0 to entry 2</title></rect>
<text x='200' y='147'>s1 pool</text>
<rect x='272' y='130' width='72' height='14' fill='#9fc8f0' stroke-dasharray='4 2' stroke='#2c5d8f'><title>h0 in s2, team, line 6, from entry 2 to the end</title></rect>
<text x='308' y='141'>s2 team</text>
<rect x='56' y='186' width='288' height='14' fill='#e3e6e9' stroke='#9aa4ad'><title>h1 in base, idle, from the start to the end</title></rect>
<text x='200' y='197'>base</text>
<text x='200' y='122'>+1<title>entry 1: h0 request s1</title></text>
<text x='68' y='219'>0</text>
<text x='68' y='233'>1</text>
<text x='140' y='219'>0</text>
<text x='140' y='233'>1</text>
<rect x='200' y='208' width='72' height='14' fill='#f6b3b9' stroke='#b00020'><title>before entry 2: unmet 1, idle 1</title></rect>
<text x='212' y='219'>1</text>
<text x='212' y='233'>1</text>
<rect x='272' y='208' width='72' height='14' fill='#f6b3b9' stroke='#b00020'><title>before entry 3: unmet 1, idle 1</title></rect>
<text x='284' y='219'>1</text>
<text x='284' y='233'>1</text>
<path d='M344 116v88' stroke='#b00020' stroke-width='3' stroke-dasharray='6 3'/>
<text x='344' y='100' fill='#b00020' font-weight='bold'>fault<title>entry 3: h1 register s3: the hart is in s0, not in s1</title></text>
<text x='260' y='72' fill='#b00020' font-weight='bold' text-anchor='start'>entry 3: h1 register s3: the hart is in s0, not in s1</text>
<text y='350' font-weight='bold'><tspan x='86'>requested</tspan><tspan x='146'>met</tspan><tspan x='196'>unmet</tspan><tspan x='266'>most guests</tspan><tspan x='366'>entries inside</tspan><tspan x='426' text-anchor='start'>site</tspan></text>
<text y='368'><tspan x='86'>1</tspan><tspan x='146'>0</tspan><tspan x='196'>1</tspan><tspan x='266'>0</tspan><tspan x='366'>2</tspan><tspan x='426' text-anchor='start'>s1, pool, line 4, home h0, not ended</tspan></text>
<text y='386'><tspan x='86'>0</tspan><tspan x='146'>0</tspan><tspan x='196'>0</tspan><tspan x='266'>0</tspan><tspan x='366'>0</tspan><tspan x='426' text-anchor='start'>s2, team, line 6, in s1, home h0, not ended</tspan></text>
<text y='404'><tspan x='86'>0</tspan><tspan x='146'>0</tspan><tspan x='196'>0</tspan><tspan x='266'>0</tspan><tspan x='366'>0</tspan><tspan x='426' text-anchor='start'>s3, pool, line 10, in s1, not entered</tspan></text>
<text y='440' font-weight='bold'><tspan x='86'>entries made</tspan><tspan x='166'>stays</tspan><tspan x='246'>sites visited</tspan><tspan x='306' text-anchor='start'>hart</tspan></text>
<text y='458'><tspan x='86'>3</tspan><tspan x='166'>3</tspan><tspan x='246'>2</tspan><tspan x='306' text-anchor='start'>h0</tspan></text>
<text y='476'><tspan x='86'>0</tspan><tspan x='166'>1</tspan><tspan x='246'>0</tspan><tspan x='306' text-anchor='start'>h1</tspan></text>
<text x='16' y='52' font-size='14' text-anchor='start'>illegal: entry 3, owner is s0
</text>
</svg>
";

const SKIPPED_SVG: &[u8] =
    b"<svg xmlns='http://www.w3.org/2000/svg' version='1.1' width='700' height='498' viewBox='0 0 700 498' font-family='Helvetica, Arial, sans-serif' font-size='11' text-anchor='middle'>
<rect width='100%' height='100%' fill='#ffffff'/>
<text x='16' y='30' font-size='19' font-weight='bold' text-anchor='start'>Lithe, harts 2, sites 3, entries 4</text>
<text x='56' y='72' text-anchor='start'>entries in order, not time</text>
<g text-anchor='start'>
<rect x='56' y='268' width='24' height='14' fill='#e9f3e4' stroke='#4f7a3a'><title>the program's body</title></rect>
<text x='88' y='279'>the program's body</text>
<rect x='216' y='268' width='24' height='14' fill='#e3e6e9' stroke='#9aa4ad'><title>an idle hart</title></rect>
<text x='248' y='279'>an idle hart</text>
<rect x='336' y='268' width='24' height='14' fill='#cfe3f8' stroke='#2c5d8f'><title>a site</title></rect>
<text x='368' y='279'>a site</text>
<rect x='416' y='268' width='24' height='14' fill='#cfe3f8' stroke-dasharray='4 2' stroke='#2c5d8f'><title>a site of phases</title></rect>
<text x='448' y='279'>a site of phases</text>
<rect x='556' y='268' width='24' height='14' fill='#f6b3b9' stroke='#b00020'><title>a missed wish</title></rect>
<text x='588' y='279'>a missed wish</text>
<text x='56' y='300'>higher and darker: deeper in the tree. a missed wish: a child of the base has an unmet wish while a hart is idle.</text>
<text x='56' y='318'>+1: the home requests a hart. 1 unmet: a wish that no hart met. skip: a site that isn't entered.</text>
</g>
<text x='28' y='150' font-size='13' font-weight='bold'>h0</text>
<text x='28' y='194' font-size='13' font-weight='bold'>h1</text>
<text x='28' y='219'>unmet</text>
<text x='28' y='233'>idle</text>
<path d='M128 116v88' stroke='#d5dade'/>
<text x='128' y='88'>0</text>
<text x='128' y='100'>reg</text>
<text x='128' y='112'>h0 s1</text>
<path d='M200 116v88' stroke='#d5dade'/>
<text x='200' y='88'>1</text>
<text x='200' y='100'>skip</text>
<text x='200' y='112'>h0 s2</text>
<path d='M272 116v88' stroke='#d5dade'/>
<text x='272' y='88'>2</text>
<text x='272' y='100'>skip</text>
<text x='272' y='112'>h0 s3</text>
<path d='M344 116v88' stroke='#d5dade'/>
<text x='344' y='88'>3</text>
<text x='344' y='100'>unreg</text>
<text x='344' y='112'>h0 s1</text>
<rect x='56' y='142' width='72' height='14' fill='#e9f3e4' stroke='#4f7a3a'><title>h0 in base, the program's body, from the start to entry 0</title></rect>
<text x='92' y='153'>base</text>
<rect x='128' y='136' width='216' height='14' fill='#cfe3f8' stroke='#2c5d8f'><title>h0 in s1, pool, line 4, from entry 0 to entry 3</title></rect>
<text x='236' y='147'>s1 pool</text>
<rect x='344' y='142' width='72' height='14' fill='#e9f3e4' stroke='#4f7a3a'><title>h0 in base, the program's body, from entry 3 to the end</title></rect>
<text x='380' y='153'>base</text>
<rect x='56' y='186' width='360' height='14' fill='#e3e6e9' stroke='#9aa4ad'><title>h1 in base, idle, from the start to the end</title></rect>
<text x='236' y='197'>base</text>
<text x='200' y='122'>skip s2<title>entry 1: h0 skip s2</title></text>
<text x='272' y='122'>skip s3<title>entry 2: h0 skip s3</title></text>
<text x='68' y='219'>0</text>
<text x='68' y='233'>1</text>
<text x='140' y='219'>0</text>
<text x='140' y='233'>1</text>
<text x='212' y='219'>0</text>
<text x='212' y='233'>1</text>
<text x='284' y='219'>0</text>
<text x='284' y='233'>1</text>
<text x='356' y='219'>0</text>
<text x='356' y='233'>1</text>
<text y='350' font-weight='bold'><tspan x='86'>requested</tspan><tspan x='146'>met</tspan><tspan x='196'>unmet</tspan><tspan x='266'>most guests</tspan><tspan x='366'>entries inside</tspan><tspan x='426' text-anchor='start'>site</tspan></text>
<text y='368'><tspan x='86'>0</tspan><tspan x='146'>0</tspan><tspan x='196'>0</tspan><tspan x='266'>0</tspan><tspan x='366'>3</tspan><tspan x='426' text-anchor='start'>s1, pool, line 4, home h0</tspan></text>
<text y='386'><tspan x='86'>0</tspan><tspan x='146'>0</tspan><tspan x='196'>0</tspan><tspan x='266'>0</tspan><tspan x='366'>0</tspan><tspan x='426' text-anchor='start'>s2, team, line 6, in s1, skipped</tspan></text>
<text y='404'><tspan x='86'>0</tspan><tspan x='146'>0</tspan><tspan x='196'>0</tspan><tspan x='266'>0</tspan><tspan x='366'>0</tspan><tspan x='426' text-anchor='start'>s3, pool, line 10, in s1, skipped</tspan></text>
<text y='440' font-weight='bold'><tspan x='86'>entries made</tspan><tspan x='166'>stays</tspan><tspan x='246'>sites visited</tspan><tspan x='306' text-anchor='start'>hart</tspan></text>
<text y='458'><tspan x='86'>4</tspan><tspan x='166'>3</tspan><tspan x='246'>1</tspan><tspan x='306' text-anchor='start'>h0</tspan></text>
<text y='476'><tspan x='86'>0</tspan><tspan x='166'>1</tspan><tspan x='246'>0</tspan><tspan x='306' text-anchor='start'>h1</tspan></text>
<text x='16' y='52' font-size='14' text-anchor='start'>legal 4
</text>
</svg>
";

const FIRST: [Entry; 5] = [
    Entry::Register { hart: 0, site: 1 },
    Entry::Request {
        hart: 0,
        site: 1,
        count: 1,
    },
    Entry::Enter { hart: 1, site: 1 },
    Entry::Yield { hart: 1, site: 1 },
    Entry::Unregister { hart: 0, site: 1 },
];

const NESTED: [Entry; 11] = [
    Entry::Register { hart: 0, site: 1 },
    Entry::Request {
        hart: 0,
        site: 1,
        count: 1,
    },
    Entry::Register { hart: 0, site: 2 },
    Entry::Request {
        hart: 0,
        site: 2,
        count: 1,
    },
    Entry::Enter { hart: 1, site: 1 },
    Entry::Register { hart: 1, site: 3 },
    Entry::Request {
        hart: 1,
        site: 3,
        count: 1,
    },
    Entry::Unregister { hart: 1, site: 3 },
    Entry::Unregister { hart: 0, site: 2 },
    Entry::Yield { hart: 1, site: 1 },
    Entry::Unregister { hart: 0, site: 1 },
];

const SKIPPED: [Entry; 4] = [
    Entry::Register { hart: 0, site: 1 },
    Entry::Skip { hart: 0, site: 2 },
    Entry::Skip { hart: 0, site: 3 },
    Entry::Unregister { hart: 0, site: 1 },
];

// Hart 1 is in the base, and not in site 1.
const FAULTY: [Entry; 5] = [
    Entry::Register { hart: 0, site: 1 },
    Entry::Request {
        hart: 0,
        site: 1,
        count: 1,
    },
    Entry::Register { hart: 0, site: 2 },
    Entry::Register { hart: 1, site: 3 },
    Entry::Unregister { hart: 0, site: 2 },
];

const ONE: [Shape; 1] = [Shape {
    kind: Kind::POOL,
    phased: false,
    line: 3,
}];

const THREE: [Shape; 3] = [
    Shape {
        kind: Kind::POOL,
        phased: false,
        line: 4,
    },
    Shape {
        kind: Kind::TEAM,
        phased: true,
        line: 6,
    },
    Shape {
        kind: Kind::POOL,
        phased: false,
        line: 10,
    },
];

// All three sites are meant to be entered.
const ALL: [bool; 3] = [true, true, true];

#[test]
fn the_first_run_in_text(rt: HostRuntime) -> Result<(), Fail> {
    let alloc = rt.alloc();
    let plan = Plan::new(alloc, 2, &[0])?;
    let text = text_picture(alloc, &plan, &[true], &ONE, &FIRST, b"legal 5\n")?;
    let same = text.as_slice() == FIRST_TEXT;
    assert!(rt; same);
    Ok(())
}

#[test]
fn the_first_run_as_svg(rt: HostRuntime) -> Result<(), Fail> {
    let alloc = rt.alloc();
    let plan = Plan::new(alloc, 2, &[0])?;
    let text = svg_picture(alloc, &plan, &[true], &ONE, &FIRST, b"legal 5\n")?;
    let same = text.as_slice() == FIRST_SVG;
    assert!(rt; same);
    Ok(())
}

#[test]
fn a_nested_run_in_text(rt: HostRuntime) -> Result<(), Fail> {
    let alloc = rt.alloc();
    let plan = Plan::new(alloc, 2, &[0, 1, 1])?;
    let text = text_picture(alloc, &plan, &ALL, &THREE, &NESTED, b"legal 11\n")?;
    let same = text.as_slice() == NESTED_TEXT;
    assert!(rt; same);
    Ok(())
}

#[test]
fn sites_are_skipped_in_text(rt: HostRuntime) -> Result<(), Fail> {
    let alloc = rt.alloc();
    let plan = Plan::new(alloc, 2, &[0, 1, 1])?;
    let text = text_picture(
        alloc,
        &plan,
        &ALL,
        &THREE,
        &SKIPPED,
        b"illegal: entry 4, s2 is skipped\n",
    )?;
    let same = text.as_slice() == SKIPPED_TEXT;
    assert!(rt; same);
    Ok(())
}

#[test]
fn sites_that_are_not_meant_are_skipped_without_a_fault(rt: HostRuntime) -> Result<(), Fail> {
    let alloc = rt.alloc();
    let plan = Plan::new(alloc, 2, &[0, 1, 1])?;
    let text = text_picture(
        alloc,
        &plan,
        &[true, false, false],
        &THREE,
        &SKIPPED,
        b"legal 4\n",
    )?;
    let same = text.as_slice() == PASSED_TEXT;
    assert!(rt; same);
    Ok(())
}

#[test]
fn a_nested_run_as_svg(rt: HostRuntime) -> Result<(), Fail> {
    let alloc = rt.alloc();
    let plan = Plan::new(alloc, 2, &[0, 1, 1])?;
    let text = svg_picture(alloc, &plan, &ALL, &THREE, &NESTED, b"legal 11\n")?;
    let same = text.as_slice() == NESTED_SVG;
    assert!(rt; same);
    Ok(())
}

#[test]
fn a_list_is_drawn_up_to_its_fault(rt: HostRuntime) -> Result<(), Fail> {
    let alloc = rt.alloc();
    let plan = Plan::new(alloc, 2, &[0, 1, 1])?;
    let text = text_picture(
        alloc,
        &plan,
        &ALL,
        &THREE,
        &FAULTY,
        b"illegal: entry 3, owner is s0\n",
    )?;
    let same = text.as_slice() == FAULTY_TEXT;
    assert!(rt; same);
    Ok(())
}

#[test]
fn the_fault_is_marked_in_svg(rt: HostRuntime) -> Result<(), Fail> {
    let alloc = rt.alloc();
    let plan = Plan::new(alloc, 2, &[0, 1, 1])?;
    let text = svg_picture(
        alloc,
        &plan,
        &ALL,
        &THREE,
        &FAULTY,
        b"illegal: entry 3, owner is s0\n",
    )?;
    let same = text.as_slice() == FAULTY_SVG;
    assert!(rt; same);
    Ok(())
}

#[test]
fn skips_are_marked_in_svg(rt: HostRuntime) -> Result<(), Fail> {
    let alloc = rt.alloc();
    let plan = Plan::new(alloc, 2, &[0, 1, 1])?;
    let text = svg_picture(
        alloc,
        &plan,
        &[true, false, false],
        &THREE,
        &SKIPPED,
        b"legal 4\n",
    )?;
    let same = text.as_slice() == SKIPPED_SVG;
    assert!(rt; same);
    Ok(())
}
