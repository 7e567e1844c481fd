//! The word of each key of a model file.
ghost use Rattle.std.specs.Prelude.{◌≡◌};
ghost use Rattle.mb_desk.specs.ModelKeys.{key_word};

use mb_kinds::ModelKey;

/// The word of a key, as a refusal prints it.
pub fn key_word(key: ModelKey) -> &'static str
    ensures { result.now ≡ key_word key }
{
    match key {
        ModelKey::Kind => "kind",
        ModelKey::Generators => "generators",
        ModelKey::Person => "person",
        ModelKey::Item => "item",
        ModelKey::Response => "response",
        ModelKey::Classes => "classes",
        ModelKey::Matrix => "matrix",
        ModelKey::Scale => "scale",
        ModelKey::Base => "base",
    }
}
