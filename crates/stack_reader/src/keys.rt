//! The words of the keys.

ghost use Rattle.std.specs.Prelude.{◌≡◌};
ghost use Rattle.stack_reader.specs.Keys.{word_of};

use stack_model::Key;

/// The key's word in a file.
pub fn word(key: Key) -> &'static str
    ensures { result.now ≡ word_of key }
{
    match key {
        Key::Version => "version",
        Key::Sway => "sway",
        Key::Name => "name",
        Key::Weight => "weight",
        Key::Friction => "friction",
        Key::Material => "material",
        Key::Joint => "joint",
        Key::First => "first",
        Key::Second => "second",
        Key::Fixed => "fixed",
        Key::Corners => "corners",
        Key::Block => "block",
        Key::Kind => "kind",
        Key::At => "at",
        Key::Force => "force",
        Key::Load => "load",
    }
}
