//! Totals as they are printed.
ghost use Rattle.std.specs.Prelude.{◌≡◌, ◌≤◌, map, length};
ghost use Rattle.ob_group.specs.Running.{total_shown};

use ob_base::Shown;
use std::array;
use std::marker::Model;

/// The cells of a row of totals, at most 32.
#[derive(Drop)]
pub struct Accs {
    cells: [Shown; 32],
    count: u8,
}

impl Model for Accs {
    ghost use Rattle.std.specs.Prelude.{List, take};
    ghost use Rattle.ob_base.specs.declared.shown.Shown.{Shown as Field};
    ghost use Rattle.ob_base.specs.contracts.shown.Shown as shown;
    ghost use Rattle.std.specs.Coded.{coded_list};
    ghost use Rattle.ob_group.specs.IsAccs.{IsAccs};

    ghost Value = { List Field };

    ghost coded = { coded_list shown.the_row.coded };

    ghost view = { λ a. take a.count a.cells };

    ghost invariant = { IsAccs };
}

// A total, as it is printed.
pub(crate) fn total_shown(total: Option<i128>) -> Shown
    ensures { result ≡ total_shown total }
{
    match total {
        Some(x) => Shown::Int(x),
        None => Shown::Null,
    }
}

impl Accs {
    // The cells of these totals, as they are printed.
    pub(crate) fn of_totals(totals: &[Option<i128>]) -> Accs
        requires { length totals.now ≤ 32 }
        ensures { result ≡ map total_shown totals.now }
    {
        let mut cells: [Shown; 32] = array::from_fn(|_| Shown::Null);
        for i in 0..totals.len() {
            cells[i] = total_shown(totals[i]);
        }
        Accs {
            cells,
            count: totals.len() as u8,
        }
    }

    /// The cells, one for each aggregate, in order.
    pub fn as_slice(&self) -> &[Shown]
        ensures { result.now ≡ self.now }
    {
        &self.cells[..usize::from(self.count)]
    }
}
