//! The row for an address by a section.

ghost use Rattle.std.specs.Prelude.{◌≡◌, ◌≤◌, ℕ, List, Some};
ghost use Rattle.dwarf_line.specs.declared.table.Row.{Row};
ghost use Rattle.dwarf_line.specs.Table.{HasRows};
ghost use Rattle.dwarf_line.specs.Spelling.{first_address};
ghost use Rattle.dwarf_line.specs.Rows.{row_in, IsLastRow, RowAt};

/// Each address of a sequence has a row: the last one at or before the address (DWARF 5 section 6.2).
pub fn one_row()
    ensures found { (rows : List Row) (end address : ℕ) → HasRows rows end → first_address rows ≤ address
        → (r : Row) × (row_in rows address ≡ Some r) }
    ensures last { (rows : List Row) (address : ℕ) (r : Row) → row_in rows address ≡ Some r → IsLastRow rows address r }
    ensures at { (bytes : List ℕ) (address : ℕ) (r : Row) → RowAt bytes address r → r.address ≤ address }
{}
