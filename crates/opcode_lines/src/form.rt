//! The names of forms.

ghost use Rattle.std.specs.Prelude.{◌≡◌};
ghost use Rattle.opcode_lines.specs.EntryFields.{form_name};

use pickle_ops::Form;

/// The name of a form of arguments.
#[tactic(auto, unfolding(crate::specs::EntryFields::form_name))]
pub fn form_name(form: Form) -> &'static str
    ensures { result.now ≡ form_name form }
{
    match form {
        Form::Empty => "none",
        Form::Uint1 => "uint1",
        Form::Uint2 => "uint2",
        Form::Uint4 => "uint4",
        Form::Uint8 => "uint8",
        Form::Int4 => "int4",
        Form::Float8 => "float8",
        Form::Line => "line",
        Form::Quoted => "quoted",
        Form::Decimal => "decimal",
        Form::Two => "lines",
        Form::Bytes1 => "bytes1",
        Form::Bytes4 => "bytes4",
        Form::Bytes8 => "bytes8",
        Form::String4 => "bytes4_signed",
    }
}
