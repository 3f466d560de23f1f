//! The options of a picture: `--harts N`, and maybe `--of C`, in any order.
ghost use Rattle.std.specs.Prelude.{◌≡◌, ◌∷◌, [], map, option_map, string_bytes};
ghost use Rattle.clap.specs.Lexer.{long_of, name_and_value, strip_byte};
ghost use Rattle.picture_call.specs.Options.{first_option, values_in, values_of};

/// The value of `--harts`, and that of `--of` if it is there. `None` if the words give no such options, or also others.
pub(crate) fn values(words: &[String]) -> Option<(&str, Option<&str>)>
    ensures { option_map (λ v. (v.0.now, option_map (λ of. of.now) v.1)) result
        ≡ values_of (map string_bytes words.now) }
{
    let (name, value, rest) = first_option(words)?;
    if rest.is_empty() {
        return value_alone(name, value);
    }
    let (second, other, rest) = first_option(rest)?;
    if !rest.is_empty() {
        return None;
    }
    two_values(name, value, second, other)
}

// The value of the one option that is given, if its name is `harts`.
fn value_alone<'w>(name: &str, value: &'w str) -> Option<(&'w str, Option<&'w str>)>
    ensures { option_map (λ v. (v.0.now, option_map (λ of. of.now) v.1)) result
        ≡ values_in ((name.now, value.now) ∷ []) }
{
    if name == "harts" {
        Some((value, None))
    } else {
        None
    }
}

// The values of the two options that are given, if their names are `harts` and `of`.
fn two_values<'w>(
    name: &str,
    value: &'w str,
    second: &str,
    other: &'w str,
) -> Option<(&'w str, Option<&'w str>)>
    ensures { option_map (λ v. (v.0.now, option_map (λ of. of.now) v.1)) result
        ≡ values_in ((name.now, value.now) ∷ (second.now, other.now) ∷ []) }
{
    if name == "harts" {
        return if second == "of" {
            Some((value, Some(other)))
        } else {
            None
        };
    }
    if name != "of" {
        return None;
    }
    if second == "harts" {
        Some((other, Some(value)))
    } else {
        None
    }
}

// The name and the value of the first option, and the words behind it.
fn first_option(words: &[String]) -> Option<(&str, &str, &[String])>
    ensures { option_map (λ f. ((f.0.now, f.1.now), map string_bytes f.2.now)) result
        ≡ first_option (map string_bytes words.now) }
{
    let (word, more) = words.split_first()?;
    match long_of(word)? {
        (name, Some(value)) => Some((name, value, more)),
        (name, None) => {
            let (value, rest) = more.split_first()?;
            Some((name, value, rest))
        }
    }
}

// The name and the value of `--name=value`, or the name of `--name`.
fn long_of(word: &str) -> Option<(&str, Option<&str>)>
    ensures { option_map (λ p. (p.0.now, option_map (λ s. s.now) p.1)) result ≡ long_of word.now }
{
    let rest = strip_dash(strip_dash(word)?)?;
    if rest.is_empty() {
        return None;
    }
    Some(split_value(rest))
}

// What follows a first hyphen.
fn strip_dash(word: &str) -> Option<&str>
    ensures { option_map (λ s. s.now) result ≡ strip_byte 45 word.now }
{
    word.strip_prefix('-')
}

// What stands before the first `=`, and what stands behind it if there is one.
fn split_value(text: &str) -> (&str, Option<&str>)
    ensures { (result.0.now, option_map (λ s. s.now) result.1) ≡ name_and_value text.now }
{
    match text.split_once('=') {
        Some((name, value)) => (name, Some(value)),
        None => (text, None),
    }
}
