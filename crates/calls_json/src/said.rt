//! Which text and which operand a field has.

ghost use Rattle.std.specs.Prelude.{◌≡◌};
ghost use Rattle.calls_json.specs.SaidNames.{text_name, hex_name, raw_name, unicode_name, string_name, object_name, operand_name, operand_more};

/// A text of a line, which has a field under one of several names, by how it is spelled.
#[derive(Clone, Copy, Debug, PartialEq, Eq)]
pub enum Said {
    /// The module of an import, or of what is called.
    Module,
    /// The member of that module.
    Name,
    /// The module that the pickle says, where Python 3 imports another one.
    ForModule,
    /// The member that the pickle says.
    ForName,
    /// The line of PERSID.
    Line,
    /// The value of an operand.
    Value,
}

/// An operand of a line: an array where it is a tuple, else an object.
#[derive(Clone, Copy, Debug, PartialEq, Eq)]
pub enum Operand {
    /// The arguments of a call.
    Args,
    /// Its arguments with names.
    Keywords,
    /// The state that an object gets.
    State,
    /// The object that names what a program keeps elsewhere.
    Id,
}

/// The name of the field of a text that stands for itself.
#[tactic(auto, unfolding(crate::specs::SaidNames::text_name))]
pub(crate) fn text_name(said: Said) -> &'static str
    ensures { result.now ≡ text_name said }
{
    match said {
        Said::Module => "module",
        Said::Name => "name",
        Said::ForModule => "for_module",
        Said::ForName => "for_name",
        Said::Line => "line",
        Said::Value => "value",
    }
}

/// The name of the field of a text that stands for itself and is no UTF-8.
#[tactic(auto, unfolding(crate::specs::SaidNames::hex_name))]
pub(crate) fn hex_name(said: Said) -> &'static str
    ensures { result.now ≡ hex_name said }
{
    match said {
        Said::Module => "module_hex",
        Said::Name => "name_hex",
        Said::ForModule => "for_module_hex",
        Said::ForName => "for_name_hex",
        Said::Line => "line_hex",
        Said::Value => "value_hex",
    }
}

/// The name of the field of a text that cannot be read.
#[tactic(auto, unfolding(crate::specs::SaidNames::raw_name))]
pub(crate) fn raw_name(said: Said) -> &'static str
    ensures { result.now ≡ raw_name said }
{
    match said {
        Said::Module => "module_raw_hex",
        Said::Name => "name_raw_hex",
        Said::ForModule => "for_module_raw_hex",
        Said::ForName => "for_name_raw_hex",
        Said::Line => "line_raw_hex",
        Said::Value => "value_raw_hex",
    }
}

/// The name of the field of a text of UNICODE that is spelled with escapes.
#[tactic(auto, unfolding(crate::specs::SaidNames::unicode_name))]
pub(crate) fn unicode_name(said: Said) -> &'static str
    ensures { result.now ≡ unicode_name said }
{
    match said {
        Said::Module => "module_raw_unicode_escape_hex",
        Said::Name => "name_raw_unicode_escape_hex",
        Said::ForModule => "for_module_raw_unicode_escape_hex",
        Said::ForName => "for_name_raw_unicode_escape_hex",
        Said::Line => "line_raw_unicode_escape_hex",
        Said::Value => "value_raw_unicode_escape_hex",
    }
}

/// The name of the field of a string of STRING that is spelled with escapes.
#[tactic(auto, unfolding(crate::specs::SaidNames::string_name))]
pub(crate) fn string_name(said: Said) -> &'static str
    ensures { result.now ≡ string_name said }
{
    match said {
        Said::Module => "module_string_escape_hex",
        Said::Name => "name_string_escape_hex",
        Said::ForModule => "for_module_string_escape_hex",
        Said::ForName => "for_name_string_escape_hex",
        Said::Line => "line_string_escape_hex",
        Said::Value => "value_string_escape_hex",
    }
}

/// The name of the field of an object that is no text and stands for one.
#[tactic(auto, unfolding(crate::specs::SaidNames::object_name))]
pub(crate) fn object_name(said: Said) -> &'static str
    ensures { result.now ≡ object_name said }
{
    match said {
        Said::Module => "module_object",
        Said::Name => "name_object",
        Said::ForModule => "for_module_object",
        Said::ForName => "for_name_object",
        Said::Line => "line_object",
        Said::Value => "value_object",
    }
}

/// The name of the field of an operand.
#[tactic(auto, unfolding(crate::specs::SaidNames::operand_name))]
pub(crate) fn operand_name(operand: Operand) -> &'static str
    ensures { result.now ≡ operand_name operand }
{
    match operand {
        Operand::Args => "args",
        Operand::Keywords => "keywords",
        Operand::State => "state",
        Operand::Id => "id",
    }
}

/// The name of the field that says how many parts of an operand were cut off.
#[tactic(auto, unfolding(crate::specs::SaidNames::operand_more))]
pub(crate) fn operand_more(operand: Operand) -> &'static str
    ensures { result.now ≡ operand_more operand }
{
    match operand {
        Operand::Args => "args_more",
        Operand::Keywords => "keywords_more",
        Operand::State => "state_more",
        Operand::Id => "id_more",
    }
}
