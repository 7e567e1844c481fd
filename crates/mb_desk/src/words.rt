//! What the words of the command line ask for.
ghost use Rattle.std.specs.Prelude.{◌≡◌, ◌∷◌, MatchOption, []};
ghost use Rattle.mb_desk.specs.Forms.{kind_of, part_of, texts};
ghost use Rattle.mb_desk.specs.Words.{
  analyse_command,
  basis_command,
  check_command,
  dataset_command,
  export_command,
  generate_command,
  import_command,
  list_command,
  model_command,
  moves_command,
  reach_command,
  read_among,
  read_command,
  record_commands,
  remove_command,
  report_command,
  request_of,
};

use crate::options::{
    are_options, fiber_option, is_file_word, limit_option, looks_option, matrix_option,
    next_option, order_option, read_number, workers_option,
};
use crate::parts::Part;
use crate::requests::{
    AnalyseWords, BasisWords, ImportWords, LARGEST_SEED, ModelWords, MovesWords, ReachWords,
    Request,
};
use crate::texts::{NameWord, Word};
use mb_registry::Kind;

/// The first word, and the others.
fn next_word(words: &[String]) -> Option<(&str, &[String])>
    ensures { MatchOption result (texts words.now ≡ [])
        (λ p. texts words.now ≡ p.0.now ∷ texts p.1.now) }
{
    match words {
        [word, others @ ..] => Some((word.as_str(), others)),
        _ => None,
    }
}

/// The kind of records that a word is for.
fn read_kind(word: &str) -> Option<Kind>
    ensures { result ≡ kind_of word.now }
{
    if word == "dataset" {
        return Some(Kind::Dataset);
    }
    if word == "model" {
        return Some(Kind::Model);
    }
    if word == "basis" {
        return Some(Kind::Basis);
    }
    if word == "analysis" {
        return Some(Kind::Analysis);
    }
    None
}

/// What is exported by a word.
fn read_part(word: &str) -> Option<Part>
    ensures { result ≡ part_of word.now }
{
    if word == "dataset" {
        return Some(Part::Dataset);
    }
    if word == "matrix" {
        return Some(Part::Matrix);
    }
    if word == "moves" {
        return Some(Part::Moves);
    }
    if word == "certificate" {
        return Some(Part::Certificate);
    }
    if word == "rules" {
        return Some(Part::Rules);
    }
    None
}

/// `moves MATRIX MOVES`.
fn read_moves(words: &[String]) -> Option<Request<'_>>
    ensures { result ≡ read_command moves_command (texts words.now) }
{
    let [matrix, moves, options @ ..] = words else {
        return None;
    };
    let matrix = matrix.as_str();
    let moves = moves.as_str();
    if !is_file_word(matrix) || !is_file_word(moves) || !are_options(options, &[]) {
        return None;
    }
    Some(Request::Moves(MovesWords {
        matrix: Word::of(matrix),
        moves: Word::of(moves),
    }))
}

/// `reach MATRIX MOVES TABLE [--limit L]`.
fn read_reach(words: &[String]) -> Option<Request<'_>>
    ensures { result ≡ read_command reach_command (texts words.now) }
{
    let [matrix, moves, table, options @ ..] = words else {
        return None;
    };
    let matrix = matrix.as_str();
    let moves = moves.as_str();
    let table = table.as_str();
    if !is_file_word(matrix) || !is_file_word(moves) || !is_file_word(table) {
        return None;
    }
    if !are_options(options, &["--limit"]) {
        return None;
    }
    let limit = limit_option(options)?;
    Some(Request::Reach(ReachWords {
        matrix: Word::of(matrix),
        moves: Word::of(moves),
        table: Word::of(table),
        limit,
    }))
}

/// `check CERTIFICATE`.
fn read_check(words: &[String]) -> Option<Request<'_>>
    ensures { result ≡ read_command check_command (texts words.now) }
{
    let [certificate, options @ ..] = words else {
        return None;
    };
    let certificate = certificate.as_str();
    if !is_file_word(certificate) || !are_options(options, &[]) {
        return None;
    }
    Some(Request::Check {
        certificate: Word::of(certificate),
    })
}

/// `generate SEED [--workers W]`.
fn read_generate(words: &[String]) -> Option<Request<'_>>
    ensures { result ≡ read_command generate_command (texts words.now) }
{
    let (seed, options) = next_word(words)?;
    let seed = read_number(seed, 0, LARGEST_SEED)?;
    if !are_options(options, &["--workers"]) {
        return None;
    }
    let workers = workers_option(options)?;
    Some(Request::Generate { seed, workers })
}

/// `dataset NAME FILE`.
fn read_dataset(words: &[String]) -> Option<Request<'_>>
    ensures { result ≡ read_command dataset_command (texts words.now) }
{
    let [name, file, options @ ..] = words else {
        return None;
    };
    let name = NameWord::of(name.as_str())?;
    let file = file.as_str();
    if !is_file_word(file) || !are_options(options, &[]) {
        return None;
    }
    Some(Request::Dataset {
        name,
        file: Word::of(file),
    })
}

/// `model NAME DATASET FILE [--matrix FILE]`.
fn read_model(words: &[String]) -> Option<Request<'_>>
    ensures { result ≡ read_command model_command (texts words.now) }
{
    let [name, dataset, file, options @ ..] = words else {
        return None;
    };
    let name = NameWord::of(name.as_str())?;
    let dataset = NameWord::of(dataset.as_str())?;
    let file = file.as_str();
    if !is_file_word(file) || !are_options(options, &["--matrix"]) {
        return None;
    }
    let matrix = matrix_option(options)?;
    Some(Request::Model(ModelWords {
        name,
        dataset,
        file: Word::of(file),
        matrix,
    }))
}

/// `basis NAME MODEL [--order O] [--pairs K]`.
fn read_basis(words: &[String]) -> Option<Request<'_>>
    ensures { result ≡ read_command basis_command (texts words.now) }
{
    let [name, model, options @ ..] = words else {
        return None;
    };
    let name = NameWord::of(name.as_str())?;
    let model = NameWord::of(model.as_str())?;
    if !are_options(options, &["--order", "--pairs"]) {
        return None;
    }
    let order = order_option(options)?;
    let looks = looks_option(options)?;
    Some(Request::Basis(BasisWords {
        name,
        model,
        order,
        looks,
    }))
}

/// `import NAME BASIS MOVES [--limit L]`.
fn read_import(words: &[String]) -> Option<Request<'_>>
    ensures { result ≡ read_command import_command (texts words.now) }
{
    let [name, basis, moves, options @ ..] = words else {
        return None;
    };
    let name = NameWord::of(name.as_str())?;
    let basis = NameWord::of(basis.as_str())?;
    let moves = moves.as_str();
    if !is_file_word(moves) || !are_options(options, &["--limit"]) {
        return None;
    }
    let limit = limit_option(options)?;
    Some(Request::Import(ImportWords {
        name,
        basis,
        moves: Word::of(moves),
        limit,
    }))
}

/// `analyse NAME BASIS [--limit L] [--workers W]`.
fn read_analyse(words: &[String]) -> Option<Request<'_>>
    ensures { result ≡ read_command analyse_command (texts words.now) }
{
    let (name, basis, options) = next_option(words)?;
    let name = NameWord::of(name)?;
    let basis = NameWord::of(basis)?;
    if !are_options(options, &["--limit", "--workers"]) {
        return None;
    }
    let limit = fiber_option(options)?;
    let workers = workers_option(options)?;
    Some(Request::Analyse(AnalyseWords {
        name,
        basis,
        limit,
        workers,
    }))
}

/// `report NAME`.
fn read_report(words: &[String]) -> Option<Request<'_>>
    ensures { result ≡ read_command report_command (texts words.now) }
{
    let [name, options @ ..] = words else {
        return None;
    };
    let name = NameWord::of(name.as_str())?;
    if !are_options(options, &[]) {
        return None;
    }
    Some(Request::Report { name })
}

/// `list`.
fn read_list(words: &[String]) -> Option<Request<'_>>
    ensures { result ≡ read_command list_command (texts words.now) }
{
    if !are_options(words, &[]) {
        return None;
    }
    Some(Request::List)
}

/// `export WHAT NAME FILE`.
fn read_export(words: &[String]) -> Option<Request<'_>>
    ensures { result ≡ read_command export_command (texts words.now) }
{
    let [part, name, file, options @ ..] = words else {
        return None;
    };
    let part = read_part(part.as_str())?;
    let name = NameWord::of(name.as_str())?;
    let file = file.as_str();
    if !is_file_word(file) || !are_options(options, &[]) {
        return None;
    }
    Some(Request::Export {
        part,
        name,
        file: Word::of(file),
    })
}

/// `remove KIND NAME`.
fn read_remove(words: &[String]) -> Option<Request<'_>>
    ensures { result ≡ read_command remove_command (texts words.now) }
{
    let [kind, name, options @ ..] = words else {
        return None;
    };
    let kind = read_kind(kind.as_str())?;
    let name = NameWord::of(name.as_str())?;
    if !are_options(options, &[]) {
        return None;
    }
    Some(Request::Remove { kind, name })
}

/// The request of the words after a command that works with records.
fn read_record_command<'a>(command: &str, words: &'a [String]) -> Option<Request<'a>>
    ensures { result ≡ read_among record_commands command.now (texts words.now) }
{
    if command == "dataset" {
        return read_dataset(words);
    }
    if command == "model" {
        return read_model(words);
    }
    if command == "basis" {
        return read_basis(words);
    }
    if command == "import" {
        return read_import(words);
    }
    if command == "analyse" {
        return read_analyse(words);
    }
    if command == "report" {
        return read_report(words);
    }
    if command == "list" {
        return read_list(words);
    }
    if command == "export" {
        return read_export(words);
    }
    if command == "remove" {
        return read_remove(words);
    }
    None
}

/// The request of the words, where they are one: the command, its positional words in order, then
/// its options in any order.
pub fn read_words(words: &[String]) -> Option<Request<'_>>
    ensures { result ≡ request_of (texts words.now) }
{
    let (command, words) = words.split_first()?;
    let command = command.as_str();
    if command == "moves" {
        return read_moves(words);
    }
    if command == "reach" {
        return read_reach(words);
    }
    if command == "check" {
        return read_check(words);
    }
    if command == "generate" {
        return read_generate(words);
    }
    read_record_command(command, words)
}
