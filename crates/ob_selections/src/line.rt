//! The lines of the indices of selections in CSV.
ghost use Rattle.std.specs.Prelude.{◌≡◌, ℕ, List, ◌++◌, ◌∷◌, [], ◌≤◌, ◌<◌, ◌^◌, IfErr, OnOk};
ghost use Rattle.std.specs.List.{flat_map};
ghost use Rattle.ob_base.specs.Stop.{out_of_memory};
ghost use Rattle.ob_index.specs.Ratio.{fraction_text, quotient};
ghost use Rattle.ob_index.specs.Short.{IsShort};
ghost use Rattle.ob_selections.specs.Formulas.{listed};
ghost use Rattle.ob_selections.specs.Decimals.{decimals_text};
ghost use Rattle.ob_selections.specs.Lines.{count_fields, figures_line, header, index_columns, index_fields, key_fields, quotient_fields, service_fields};
ghost use Rattle.ob_selections.specs.Sums.{AreAtMost};

use crate::decimals::{push_decimals, push_number};
use crate::figures::Figures;
use crate::formula::{Formula, LISTED, index_of, listed_at};
use itoa::Buffer;
use ob_base::Stop;
use ob_index::laws::quotient_law;
use ob_index::{Fraction, reduced};

// The names of the columns before those of the indices.
const COLUMNS: &[u8] =
    b"key,set,period_seconds,customer_seconds_served,customers_served,customers_served_3,sustained,sustained_customer_seconds,interrupted,momentary";

/// Appends the names of the columns. The error is a failed allocation.
pub fn push_header(text: &mut Vec<u8>) -> Result<(), Stop>
    ensures ok { OnOk result (text.new.items ≡ text.old.items ++ header) }
    ensures err { IfErr result (λ e. e ≡ out_of_memory) }
{
    text.extend_from_slice(COLUMNS)?;
    push_index_columns(text)?;
    text.push(b'\n')?;
    Ok(())
}

fn push_index_columns(text: &mut Vec<u8>) -> Result<(), Stop>
    ensures ok { OnOk result (text.new.items ≡ text.old.items ++ flat_map index_columns listed) }
    ensures err { IfErr result (λ e. e ≡ out_of_memory) }
{
    for place in 0..LISTED {
        let (name, formula) = listed_at(place);
        push_columns(text, name, &formula)?;
    }
    Ok(())
}

// Appends the names of the two columns of an index.
#[tactic(auto, unfolding(crate::specs::Lines::index_columns))]
fn push_columns(text: &mut Vec<u8>, name: &str, formula: &Formula) -> Result<(), Stop>
    ensures ok { OnOk result (text.new.items ≡ text.old.items
        ++ index_columns (name.now, formula.now)) }
    ensures err { IfErr result (λ e. e ≡ out_of_memory) }
{
    text.push(b',')?;
    text.extend_from_slice(name.as_bytes())?;
    text.push(b',')?;
    text.extend_from_slice(name.as_bytes())?;
    text.push(b'_')?;
    text.extend_from_slice(Buffer::new().format(formula.places).as_bytes())?;
    Ok(())
}

/// Appends the line of the figures of a selection. The error is a failed allocation.
pub fn push_line(
    text: &mut Vec<u8>,
    key: &[u8],
    set: &[u8],
    all_days: bool,
    figures: &Figures,
) -> Result<(), Stop>
    requires small { AreAtMost (2 ^ 52) figures.now }
    requires short { figures.now.length < 2 ^ 25 }
    ensures ok { OnOk result (text.new.items ≡ text.old.items
        ++ figures_line key.now set.now all_days figures.now) }
    ensures err { IfErr result (λ e. e ≡ out_of_memory) }
{
    push_key(text, key, set)?;
    push_service(text, figures)?;
    push_counts(text, figures)?;
    push_indices(text, all_days, figures)?;
    text.push(b'\n')?;
    Ok(())
}

// Appends the key and the set.
fn push_key(text: &mut Vec<u8>, key: &[u8], set: &[u8]) -> Result<(), Stop>
    ensures ok { OnOk result (text.new.items ≡ text.old.items ++ key_fields key.now set.now) }
    ensures err { IfErr result (λ e. e ≡ out_of_memory) }
{
    text.extend_from_slice(key)?;
    text.push(b',')?;
    text.extend_from_slice(set)?;
    Ok(())
}

// Appends the seconds of the days, the customer-seconds in service and the customers served.
fn push_service(text: &mut Vec<u8>, figures: &Figures) -> Result<(), Stop>
    requires small { AreAtMost (2 ^ 52) figures.now }
    requires short { figures.now.length < 2 ^ 25 }
    ensures ok { OnOk result (text.new.items ≡ text.old.items ++ service_fields figures.now) }
    ensures err { IfErr result (λ e. e ≡ out_of_memory) }
{
    push_number(text, figures.length)?;
    push_number(text, figures.served)?;
    push_quotient(text, 3, &customers_served(figures))
}

// The customers served, an average over the days.
fn customers_served(figures: &Figures) -> Option<Fraction>
    requires small { AreAtMost (2 ^ 52) figures.now }
    requires short { figures.now.length < 2 ^ 25 }
    ensures value { result ≡ quotient figures.now.served figures.now.length }
    ensures short { IsShort result }
{
    // This call's contract states that a quotient is one fraction, and how large its numbers are.
    quotient_law();
    reduced(u128::from(figures.served), u128::from(figures.length))
}

// Appends CI, CSI, CN and MI.
fn push_counts(text: &mut Vec<u8>, figures: &Figures) -> Result<(), Stop>
    ensures ok { OnOk result (text.new.items ≡ text.old.items ++ count_fields figures.now) }
    ensures err { IfErr result (λ e. e ≡ out_of_memory) }
{
    push_number(text, figures.counts.ci)?;
    push_number(text, figures.counts.csi)?;
    push_number(text, figures.counts.cn)?;
    push_number(text, figures.counts.mi)
}

// Appends the fields of all indices.
fn push_indices(text: &mut Vec<u8>, all_days: bool, figures: &Figures) -> Result<(), Stop>
    requires small { AreAtMost (2 ^ 52) figures.now }
    requires short { figures.now.length < 2 ^ 25 }
    ensures ok { OnOk result (text.new.items ≡ text.old.items
        ++ flat_map (index_fields all_days figures.now) listed) }
    ensures err { IfErr result (λ e. e ≡ out_of_memory) }
{
    for place in 0..LISTED {
        let (_, formula) = listed_at(place);
        push_index(text, all_days, figures, &formula)?;
    }
    Ok(())
}

// Appends the fields of an index, whatever its name.
#[tactic(auto, unfolding(crate::specs::Lines::index_fields))]
fn push_index(
    text: &mut Vec<u8>,
    all_days: bool,
    figures: &Figures,
    formula: &Formula,
) -> Result<(), Stop>
    requires small { AreAtMost (2 ^ 52) figures.now }
    requires short { figures.now.length < 2 ^ 25 }
    requires places { formula.now.places ≤ 5 }
    ensures ok { (name : List ℕ) → OnOk result (text.new.items ≡ text.old.items
        ++ index_fields all_days figures.now (name, formula.now)) }
    ensures err { IfErr result (λ e. e ≡ out_of_memory) }
{
    push_quotient(text, formula.places, &index_of(formula, figures, all_days))
}

// Appends a quotient and its decimals, at most 5; two empty fields if there is none.
fn push_quotient(text: &mut Vec<u8>, places: u8, quotient: &Option<Fraction>) -> Result<(), Stop>
    requires places { places ≤ 5 }
    requires short { IsShort quotient.now }
    ensures ok { OnOk result (text.new.items ≡ text.old.items ++ quotient_fields places quotient.now) }
    ensures err { IfErr result (λ e. e ≡ out_of_memory) }
{
    match quotient {
        Some(fraction) => push_fraction(text, places, fraction),
        None => {
            text.extend_from_slice(b",,")?;
            Ok(())
        }
    }
}

// Appends a comma and a fraction, and a comma and its decimals.
fn push_fraction(text: &mut Vec<u8>, places: u8, fraction: &Fraction) -> Result<(), Stop>
    requires places { places ≤ 5 }
    requires num { fraction.now.num < 2 ^ 100 }
    requires den { fraction.now.den < 2 ^ 100 }
    ensures ok { OnOk result (text.new.items ≡ text.old.items
        ++ 44 ∷ fraction_text fraction.now ++ 44 ∷ decimals_text places fraction.now) }
    ensures err { IfErr result (λ e. e ≡ out_of_memory) }
{
    let written = format!(in *text.allocator(); "{fraction}")?;
    text.push(b',')?;
    text.extend_from_slice(written.as_bytes())?;
    text.push(b',')?;
    push_decimals(text, places, fraction)
}
