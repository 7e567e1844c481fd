//! What the options of a command, and their values, are.
ghost use Rattle.std.specs.List.{list_any};
ghost use Rattle.std.specs.Prelude.{
  ◌≡◌,
  ◌≤◌,
  ◌<◌,
  ◌∷◌,
  ◌+◌,
  ◌++◌,
  IfSome,
  MatchOption,
  None,
  map,
  option_map,
  length,
};
ghost use Rattle.std.specs.Str.{bytes_eq};
ghost use Rattle.mb_desk.specs.loops.OptionsSoFar.{values_so_far};
ghost use Rattle.mb_desk.specs.Forms.{Count, OfOrder, is_file, order_of, texts};
ghost use Rattle.mb_text.specs.Plain.{number_within};
ghost use Rattle.mb_desk.specs.Options.{
  are_options,
  at_most_one,
  chosen,
  fiber_choice,
  given,
  given_by,
  limit_choice,
  looks_choice,
  matrix_choice,
  number_choice,
  order_choice,
  value_given,
  workers_choice,
};

use crate::limits::{
    FiberLimit, LARGEST_FIBER, LARGEST_LIMIT, LARGEST_LOOKS, Limit, Looks, MOST_WORKERS, Workers,
};
use crate::texts::Word;
use mb_order::Order;
use mb_text::number_within;

/// The most bytes that a word may have.
const LONGEST_WORD: usize = 4096;

/// Whether a word names a file: 1 to 4,096 bytes, the first of them not `-`.
pub fn is_file_word(word: &str) -> bool
    ensures { result ≡ is_file word.now }
{
    match word.as_bytes() {
        [] => false,
        [first, ..] => *first != b'-' && word.len() <= LONGEST_WORD,
    }
}

/// The number of a word that writes it without leading zeros, from the lowest to the highest.
pub fn read_number(word: &str, lowest: u32, highest: u32) -> Option<u32>
    ensures number { result ≡ number_within lowest highest word.now }
    ensures low { IfSome result (λ n. lowest ≤ n) }
    ensures high { IfSome result (λ n. n ≤ highest) }
{
    match number_within(word.as_bytes(), u64::from(lowest), u64::from(highest)) {
        None => None,
        Some(n) => Some(n as u32),
    }
}

/// Whether a word is one of the names.
fn is_among(word: &str, names: &[&str]) -> bool
    ensures { result ≡ list_any (bytes_eq word.now) (map (λ name. name.now) names.now) }
{
    for name in names {
        if word == *name {
            return true;
        }
    }
    false
}

/// The first two words, and the others.
pub fn next_option(words: &[String]) -> Option<(&str, &str, &[String])>
    ensures two { MatchOption result (length words.now < 2)
        (λ p. texts words.now ≡ p.0.now ∷ p.1.now ∷ texts p.2.now) }
    ensures fewer { IfSome result (λ p. length p.2.now + 2 ≤ length words.now) }
{
    match words {
        [name, value, others @ ..] => Some((name.as_str(), value.as_str(), others)),
        _ => None,
    }
}

/// Whether the words are options of these names, each with a value.
#[tactic(auto, using(crate::proofs::OptionWords::are_options_short, crate::proofs::OptionWords::are_options_step))]
pub fn are_options(words: &[String], names: &[&str]) -> bool
    ensures { result ≡ are_options (map (λ name. name.now) names.now) (texts words.now) }
{
    let mut rest = words;
    for _ in 0..words.len() {
        let Some((name, _, others)) = next_option(rest) else {
            break;
        };
        if !is_among(name, names) {
            return false;
        }
        rest = others;
    }
    rest.is_empty()
}

/// The value so far and that of one more option, where these are no two.
fn with_option<'a>(
    found: Option<&'a str>,
    name: &str,
    option: &str,
    value: &'a str,
) -> Option<Option<&'a str>>
    ensures { MatchOption result
        (at_most_one (values_so_far found.entry ++ given_by name.now option.now value.now) ≡ None)
        (λ more. values_so_far more
        ≡ values_so_far found.entry ++ given_by name.now option.now value.now) }
{
    if option != name {
        return Some(found);
    }
    match found {
        None => Some(Some(value)),
        Some(_) => None,
    }
}

/// The value that the words give to a name, where they give no two.
#[tactic(auto, using(crate::proofs::OptionWords::given_short, crate::proofs::OptionWords::given_step))]
fn given_once<'a>(words: &'a [String], name: &str) -> Option<Option<&'a str>>
    ensures { option_map (option_map (λ word. word.now)) result
        ≡ at_most_one (given name.now (texts words.now)) }
{
    let mut found: Option<&str> = None;
    let mut rest = words;
    for _ in 0..words.len() {
        let Some((option, value, others)) = next_option(rest) else {
            break;
        };
        found = with_option(found, name, option, value)?;
        rest = others;
    }
    Some(found)
}

/// The number of an option, from the lowest to the highest, or `otherwise` where it isn't given.
fn number_option(
    words: &[String],
    name: &str,
    lowest: u32,
    highest: u32,
    otherwise: u32,
) -> Option<u32>
    requires low { lowest ≤ otherwise }
    requires high { otherwise ≤ highest }
    ensures number { option_map Count result
        ≡ chosen (number_choice name.now lowest highest otherwise) (texts words.now) }
    ensures low { IfSome result (λ n. lowest ≤ n) }
    ensures high { IfSome result (λ n. n ≤ highest) }
{
    match given_once(words, name)? {
        None => Some(otherwise),
        Some(word) => read_number(word, lowest, highest),
    }
}

/// The limit of `reach` and of `import`.
pub fn limit_option(options: &[String]) -> Option<Limit>
    ensures { option_map Count result ≡ chosen limit_choice (texts options.now) }
{
    let tables = number_option(options, "--limit", 1, LARGEST_LIMIT, LARGEST_LIMIT)?;
    Some(Limit::of(tables))
}

/// The limit of `analyse`.
pub fn fiber_option(options: &[String]) -> Option<FiberLimit>
    ensures { option_map Count result ≡ chosen fiber_choice (texts options.now) }
{
    let tables = number_option(options, "--limit", 1, LARGEST_FIBER, LARGEST_FIBER)?;
    Some(FiberLimit::of(tables))
}

/// How many workers walk.
pub fn workers_option(options: &[String]) -> Option<Workers>
    ensures { option_map Count result ≡ chosen workers_choice (texts options.now) }
{
    let workers = number_option(options, "--workers", 1, MOST_WORKERS, 1)?;
    Some(Workers::of(workers))
}

/// The critical pairs that `basis` may look at.
pub fn looks_option(options: &[String]) -> Option<Looks>
    ensures { option_map Count result ≡ chosen looks_choice (texts options.now) }
{
    let pairs = number_option(options, "--pairs", 0, LARGEST_LOOKS, LARGEST_LOOKS)?;
    Some(Looks::of(pairs))
}

/// The order of monomials that a word is for.
fn read_order(word: &str) -> Option<Order>
    ensures { result ≡ order_of word.now }
{
    if word == "lex" {
        return Some(Order::Lex);
    }
    if word == "grevlex" {
        return Some(Order::Grevlex);
    }
    None
}

/// The order of `basis`.
pub fn order_option(options: &[String]) -> Option<Order>
    ensures { option_map OfOrder result ≡ chosen order_choice (texts options.now) }
{
    match given_once(options, "--order")? {
        None => Some(Order::Grevlex),
        Some(word) => read_order(word),
    }
}

/// The matrix file of `model`, if one is given.
pub fn matrix_option(options: &[String]) -> Option<Option<Word<'_>>>
    ensures { option_map value_given result ≡ chosen matrix_choice (texts options.now) }
{
    match given_once(options, "--matrix")? {
        None => Some(None),
        Some(word) if is_file_word(word) => Some(Some(Word::of(word))),
        Some(_) => None,
    }
}
