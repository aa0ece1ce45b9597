//! The number of shares of a security that an account holds in total, below 0 if it sold them short.

ghost use Rattle.std.specs.Prelude.{◌≡◌, bytes_eq, find, map, option_map};
ghost use Rattle.brk_ref.specs.Rows.{abstract_summary_row};

use brk_ref::Symbol;
use brk_trade::SummaryRow;

fn summary_shares(summary: &SummaryRow) -> i64
    ensures { result ≡ summary.now.qty }
{
    summary.qty
}

fn is_of_symbol(summary: &SummaryRow, symbol: &Symbol) -> bool
    ensures { result ≡ bytes_eq summary.now.symbol symbol.now }
{
    summary.symbol.as_str() == symbol.as_str()
}

pub(crate) fn symbol_shares(rows: &[SummaryRow], symbol: &Symbol) -> Option<i64>
    ensures { result ≡ option_map (λ r. r.qty) (find (λ r. bytes_eq r.symbol symbol.now) (map abstract_summary_row rows.now)) }
{
    let Some(row) = rows.iter().find(|row| is_of_symbol(row, symbol)) else {
        return None;
    };
    let qty = summary_shares(row);
    Some(qty)
}
