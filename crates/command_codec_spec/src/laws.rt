//! Laws of the bytes of commands. Each is proved and does nothing.

ghost use Rattle.std.specs.Prelude.{◌≡◌, ◌++◌, ℕ, List, [], None};
ghost use Rattle.prima_base.specs.declared.value.Value.{Value};
ghost use Rattle.smo_ops_types.specs.declared.op.Op.{Op};
ghost use Rattle.smo_ops_types.specs.Operators.{Operator, evolution_of, evolutions_of};
ghost use Rattle.smo_ops_types.specs.Commands.{PlainCommand, evolving};
ghost use Rattle.smo_ops_spec.specs.After.{IsValid};
ghost use Rattle.smo_ops_spec.specs.Past.{Past, newest_tables};
ghost use Rattle.smo_ops_spec.specs.ValidPast.{IsPast};
ghost use Rattle.smo_ops_spec.specs.Accepts.{command_fault};
ghost use Rattle.prima_base.specs.Bytes.{IsName};
ghost use Rattle.prima_base.specs.Columns.{IsValid as IsValidValue};
ghost use Rattle.command_codec_spec.specs.Reading.{IsCorrectParser};
ghost use Rattle.command_codec_spec.specs.Reader as spec;
ghost use Rattle.command_codec_spec.specs.Encoding.{name_bytes, value_bytes, operator_bytes};
ghost use Rattle.command_codec_spec.specs.Encoding.{command_bytes};
ghost use Rattle.command_codec_spec.specs.Valid.{IsOperator, IsCommand, IsWritable, HaveOneMember};
ghost use Rattle.command_codec_spec.specs.Found.{Encodes, EncodesName, EncodesValue};
ghost use Rattle.command_codec_spec.specs.Found.{EncodesOperator};
ghost use Rattle.command_codec_spec.specs.Found.{Decoding, IsDecoding};

/// A command has one spelling, and no other command has it.
pub fn a_command_has_one_encoding()
    ensures one { (c : PlainCommand) (a b : List ℕ) → Encodes c a → Encodes c b → a ≡ b }
    ensures its_own { (c d : PlainCommand) (a : List ℕ) → Encodes c a → Encodes d a → c ≡ d }
{}

/// No spelling is a prefix of another, be it of a command, of a name, of a value or of an operator.
pub fn no_encoding_is_a_prefix()
    ensures command { (c d : PlainCommand) (a more : List ℕ) → Encodes c a → Encodes d (a ++ more)
        → (c ≡ d) × (more ≡ []) }
    ensures name { (m n : List ℕ) (a more : List ℕ) → EncodesName m a → EncodesName n (a ++ more)
        → (m ≡ n) × (more ≡ []) }
    ensures value { (v w : Value) (a more : List ℕ) → EncodesValue v a → EncodesValue w (a ++ more)
        → (v ≡ w) × (more ≡ []) }
    ensures operator { (o p : Operator) (a more : List ℕ) → EncodesOperator o a
        → EncodesOperator p (a ++ more) → (o ≡ p) × (more ≡ []) }
{}

/// Bytes are one of three things, and one alone: a command's spelling; one and more after it; or no
/// prefix of them is one, and a byte is the first with which none goes on.
pub fn bytes_are_one_thing()
    ensures some { (bytes : List ℕ) → (d : Decoding) × IsDecoding bytes d }
    ensures one { (bytes : List ℕ) (d e : Decoding) → IsDecoding bytes d → IsDecoding bytes e
        → d ≡ e }
{}

/// The readers of names, values, operators and commands are good for their formats: what they read
/// is spelled so, what is spelled so they read, whatever follows, and a fault stands at the first
/// byte with which no spelling goes on.
pub fn parts_are_read()
    ensures name { IsCorrectParser spec.name IsName name_bytes }
    ensures value { IsCorrectParser spec.value IsValidValue value_bytes }
    ensures operator { IsCorrectParser spec.operator IsOperator operator_bytes }
    ensures command { IsCorrectParser spec.command IsCommand command_bytes }
{}

/// A command of operators of one member, as each of the code is (`code`), that is accepted after a
/// past of valid tables can be written: its counts fit their fields, its references are to atom 0,
/// and its trees are at most 32 deep. Every past that accepted commands make is one of these
/// (`past`).
pub fn accepted_commands_can_be_written()
    ensures tables { (past : Past) (command : PlainCommand) → IsValid (newest_tables past)
        → HaveOneMember command.body → command_fault past command ≡ None → IsWritable command }
    ensures past { (past : Past) (command : PlainCommand) → IsPast past
        → HaveOneMember command.body → command_fault past command ≡ None → IsWritable command }
    ensures code { (op : Op) (inverse : List Op)
        → HaveOneMember (evolving (evolution_of op) (evolutions_of inverse)) }
{}
