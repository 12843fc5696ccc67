//! Laws of the encodings of tables, and of their lengths.

ghost use Rattle.std.specs.Prelude.{◌≡◌};
ghost use Rattle.definitions.specs.Format.{HasOneEncoding, NoneBeginsAnother};
ghost use Rattle.command_encodings.specs.Lengths.{length_of};
ghost use Rattle.stored_tables.specs.Stored.{TableParts};
ghost use Rattle.table_text.specs.TableLengths.{table_length};
ghost use Rattle.table_text.specs.Tables.{table, whole_table};
ghost use Rattle.table_text.specs.FirstLayout.{first_batch, whole_first_table};
ghost use Rattle.table_text.specs.SecondLayout.{second_batch, whole_second_table};

/// No encoding of a table is a proper prefix of another.
pub fn no_table_begins_another()
    ensures { NoneBeginsAnother table }
{}

/// Each table that can be encoded has exactly one encoding.
/// Promise (Encodings): A table of a definition that can be encoded has one encoding, and none is a prefix of another
/// By: `table_text::laws::{each_table_has_one_encoding, each_whole_table_has_one_encoding, no_table_begins_another,
///   no_whole_table_begins_another}`
pub fn each_table_has_one_encoding()
    ensures { HasOneEncoding table }
{}

/// The encoding of a table has the bytes of its fields: that of the empty table has twenty.
pub fn a_table_has_the_bytes_of_its_fields()
    ensures { (t : TableParts) → length_of table t ≡ table_length t }
{}

/// No encoding of a whole table is a proper prefix of another: bytes encode at most one sound table.
pub fn no_whole_table_begins_another()
    ensures { NoneBeginsAnother whole_table }
{}

/// Each whole table that can be encoded has exactly one encoding.
pub fn each_whole_table_has_one_encoding()
    ensures { HasOneEncoding whole_table }
{}

/// No encoding of a whole table in the first layout is a proper prefix of another.
/// Promise (Encodings): In an earlier layout no table and no batch begins another
/// By: `table_text::laws::{no_whole_first_table_begins_another, no_first_batch_begins_another, no_whole_second_table_begins_another,
///   no_second_batch_begins_another}`
pub fn no_whole_first_table_begins_another()
    ensures { NoneBeginsAnother whole_first_table }
{}

/// No encoding of a batch in the first layout is a proper prefix of another.
pub fn no_first_batch_begins_another()
    ensures { NoneBeginsAnother first_batch }
{}

/// No encoding of a whole table in the second layout is a proper prefix of another.
pub fn no_whole_second_table_begins_another()
    ensures { NoneBeginsAnother whole_second_table }
{}

/// No encoding of a batch in the second layout is a proper prefix of another.
pub fn no_second_batch_begins_another()
    ensures { NoneBeginsAnother second_batch }
{}
