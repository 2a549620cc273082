//! The law of books over the table of the language. Each function states a law over the definitions.
#![tactic(auto)]

ghost use Rattle.lawful_table.specs.Laws.{TableNames, TableKeepsBooks};

/// The table looks at cells only to ask them, whatever names the cells of a book have.
pub fn law_table_names()
    ensures { TableNames }
{}

/// Each step of whoever runs works by the table keeps a book lawful.
pub fn law_table_keeps_books()
    ensures { TableKeepsBooks }
{}
