//! Laws of the encodings of commands and batches, and of their lengths.

ghost use Rattle.std.specs.Prelude.{◌≡◌, List};
ghost use Rattle.run_plan.specs.declared.command.Command.{Command};
ghost use Rattle.command_encodings.specs.Commands.{batch, command};
ghost use Rattle.definitions.specs.Format.{HasOneEncoding, NoneBeginsAnother};
ghost use Rattle.command_encodings.specs.Lengths.{batch_length, command_length, length_of};

/// No encoding of a command is a proper prefix of another.
pub fn no_command_begins_another()
    ensures { NoneBeginsAnother command }
{}

/// Each command that can be encoded has exactly one encoding.
/// Promise (Encodings): A command or batch of a definition that can be encoded has one encoding, and none is a prefix of another
/// By: `command_encodings::laws::{each_command_has_one_encoding, each_batch_has_one_encoding, no_command_begins_another,
///   no_batch_begins_another}`
pub fn each_command_has_one_encoding()
    ensures { HasOneEncoding command }
{}

/// No encoding of a batch is a proper prefix of another.
pub fn no_batch_begins_another()
    ensures { NoneBeginsAnother batch }
{}

/// Each batch that can be encoded has exactly one encoding.
pub fn each_batch_has_one_encoding()
    ensures { HasOneEncoding batch }
{}

/// The encoding of a command has one byte for its kind, four for each number, one for a result, and four plus its
/// length for each text.
/// Promise (Encodings): The length of an encoding is the sum over the fields (a command has at most 65,677 bytes)
/// By: `command_encodings::laws::{a_command_has_the_bytes_of_its_fields, a_batch_has_four_bytes_and_those_of_its_commands}`;
///   `table_text::laws::a_table_has_the_bytes_of_its_fields`
pub fn a_command_has_the_bytes_of_its_fields()
    ensures { (c : Command) → length_of command c ≡ command_length c }
{}

/// The encoding of a batch has four bytes and those of its commands.
pub fn a_batch_has_four_bytes_and_those_of_its_commands()
    ensures { (commands : List Command) → length_of batch commands ≡ batch_length commands }
{}
