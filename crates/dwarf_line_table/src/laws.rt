//! Laws about a program's line number table, each the contract of a function that does nothing.

ghost use Rattle.dwarf_line_table.specs.Laws.{TablesGiveLines, NothingOutside, NoneIsLineZero, UnitIsFileOne};

/// At each address of the code of functions that are one after the other the table has the line, column and file of
/// the first code at or after the origin of the code there, in the function as it was read.
pub fn tables_give_lines()
    ensures { TablesGiveLines }
{}

/// No row of the table is for an address without code.
pub fn nothing_outside()
    ensures { NothingOutside }
{}

/// Code without a readable debug location is at line 0 and column 0 of file 1.
pub fn none_is_line_zero()
    ensures { NoneIsLineZero }
{}

/// A source position in the unit's file is in file 1.
pub fn unit_is_file_one()
    ensures { UnitIsFileOne }
{}
