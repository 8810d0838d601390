//! Laws of what calls tell, apart from any code.

ghost use Rattle.knowledge.specs.Knowledge.{TellsLessByLess, UnionsAreJustified, ColumnsAreJustified, TablesOfColumnsAreJustified};

/// Where less is known of a finder, no more of it is told.
pub fn tells_less_by_less()
    ensures { TellsLessByLess }
{}

/// The entries of two justified tables are justified together.
pub fn unions_are_justified()
    ensures { UnionsAreJustified }
{}

/// Each column of a justified table is justified alone.
pub fn columns_are_justified()
    ensures { ColumnsAreJustified }
{}

/// Columns that are justified alone, one for each finder, make a justified table.
pub fn tables_of_columns_are_justified()
    ensures { TablesOfColumnsAreJustified }
{}
