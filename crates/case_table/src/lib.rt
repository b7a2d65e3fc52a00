//! Tables of cases: what a protocol does with each of many codes, kept as data that can be laid beside its RFC.
//!
//! A table is seen as the list of its rows. Its codes rise strictly, which is tested when the program is checked, so a
//! code has at most one row. A caller may rely on `find`: it gives the row of the code, and None exactly where no
//! row has it. What is done in each case stays in the body of a function, as the arms of [`cases!`].
//!
//! ```
//! const ORIGIN: u16 = 1;
//! const NEXT_HOP: u16 = 3;
//!
//! /// Of each attribute its length, and the flags that it has.
//! const ATTRIBUTES: [Row; 2] = [
//!     Row { code: ORIGIN, first: 1, second: 0x40 },
//!     Row { code: NEXT_HOP, first: 4, second: 0x40 },
//! ];
//!
//! fn length(kind: u16) -> Option<u16> {
//!     Some(Table::new(ATTRIBUTES).find(kind)?.first)
//! }
//!
//! fn name(kind: u16) -> &'static str {
//!     cases!(kind; ORIGIN => "ORIGIN", NEXT_HOP => "NEXT_HOP"; _ => "unrecognised")
//! }
//! ```
#![tactic(auto)]

ghost use Rattle.std.specs.Prelude.{◌≡◌, ◌≢◌, ◌↔◌, List, Some, All, Contains, IsTrue, IsNone, IfSome};
ghost use Rattle.std.specs.Option.{option_copied};
ghost use Rattle.case_table.specs.declared.Row.{Row};
ghost use Rattle.case_table.specs.Rows.{codes_rise, row_of};

use std::marker::Model;

#[cfg(test)]
mod tests;

/// One case: its code, and two numbers whose meaning the table gives them.
#[derive(Clone, Copy, Debug, PartialEq, Eq)]
pub struct Row {
    pub code: u16,
    pub first: u16,
    pub second: u16,
}

/// The rows of `N` cases, by code.
#[derive(Clone, Copy, Debug, PartialEq, Eq)]
pub struct Table<const N: usize> {
    rows: [Row; N],
}

impl<const N: usize> Model for Table<N> {
    ghost use Rattle.std.specs.Prelude.{List, IsTrue};
    ghost use Rattle.case_table.specs.declared.Row.{Row};
    ghost use Rattle.case_table.specs.Rows.{codes_rise};

    ghost Value = { List Row };

    ghost view = { λ table. table.rows };

    ghost invariant = { λ table. IsTrue (codes_rise table.rows) };

    ghost inverse = { λ rows. record { rows = rows } };
}

impl<const N: usize> Table<N> {
    /// A table of these rows, whose codes have to rise strictly.
    pub fn new(rows: [Row; N]) -> Table<N>
        requires { IsTrue (codes_rise rows) }
        ensures { result ≡ rows.entry }
    {
        Table { rows }
    }

    /// The row of a code, or None exactly where no row has it. It is found by halving.
    pub fn find(&self, code: u16) -> Option<&Row>
        ensures row { option_copied result ≡ row_of self.now code }
        ensures found { IfSome result (λ row. row.now.code ≡ code) }
        ensures none { IsNone result ↔ All (λ row. row.code ≢ code) self.now }
    {
        match self.rows.binary_search_by_key(&code, |row| row.code) {
            Ok(place) => Some(&self.rows[place]),
            Err(_) => None,
        }
    }
}

/// Where the codes rise strictly, each row is the one row of its code.
pub fn each_row_is_its_codes_row()
    ensures { (rows : List Row) (row : Row) → IsTrue (codes_rise rows) → Contains rows row
        → row_of rows row.code ≡ Some row }
{}

/// Expands to a `match` over a code, one arm for each case, and a last one for every other code.
///
/// `cases!(code; A => x, B | C => y; other => z)` is `x` where the code is A, `y` where it is B or C, and else `z`,
/// which may name the code by `other`. The cases are constants or literals, parted by commas. The arms may return or
/// use `?` as in any `match`.
#[macro_export]
macro_rules! cases {
    ($code:expr; $($case:pat => $answer:expr),+ $(,)?; $other:pat => $rest:expr) => {
        match $code {
            $($case => $answer,)+
            $other => $rest,
        }
    };
}
