//! Fractions as decimals.
ghost use Rattle.std.specs.Prelude.{◌≡◌, ℕ, ◌++◌, ◌≤◌, ◌<◌, ◌+◌, ◌*◌, ◌^◌, replicate, IfErr, OnOk};
ghost use Rattle.ob_base.specs.Stop.{out_of_memory};
ghost use Rattle.ob_selections.specs.Decimals.{decimals_text, padded, scaled as scaled_by};
ghost use Rattle.ob_selections.specs.Lines.{number_field};

use itoa::Buffer;
use ob_base::Stop;
use ob_index::Fraction;

/// Appends a comma and a number in decimal. The error is a failed allocation.
pub fn push_number(text: &mut Vec<u8>, number: u64) -> Result<(), Stop>
    ensures ok { OnOk result (text.new.items ≡ text.old.items ++ number_field number) }
    ensures err { IfErr result (λ e. e ≡ out_of_memory) }
{
    text.push(b',')?;
    text.extend_from_slice(Buffer::new().format(number).as_bytes())?;
    Ok(())
}

/// Appends a fraction with this many decimals, at most 5, rounded half up. The error is a failed
/// allocation.
pub fn push_decimals(text: &mut Vec<u8>, places: u8, fraction: &Fraction) -> Result<(), Stop>
    requires places { places ≤ 5 }
    requires num { fraction.now.num < 2 ^ 100 }
    requires den { fraction.now.den < 2 ^ 100 }
    ensures ok { OnOk result (text.new.items ≡ text.old.items ++ decimals_text places fraction.now) }
    ensures err { IfErr result (λ e. e ≡ out_of_memory) }
{
    let unit = unit_of(places);
    let number = scaled(unit, fraction);
    text.extend_from_slice(Buffer::new().format(number / unit).as_bytes())?;
    text.push(b'.')?;
    push_padded(text, places, number % unit)
}

// How many of the last decimal make 1.
fn unit_of(places: u8) -> u128
    requires { places ≤ 5 }
    ensures value { result ≡ 10 ^ places }
    ensures small { result ≤ 100_000 }
    ensures positive { 0 < result }
{
    10u128.pow(u32::from(places))
}

// The fraction times a unit, rounded half up.
fn scaled(unit: u128, fraction: &Fraction) -> u128
    requires unit { unit ≤ 100_000 }
    requires num { fraction.now.num < 2 ^ 100 }
    requires den { fraction.now.den < 2 ^ 100 }
    ensures { (places : ℕ) → unit ≡ 10 ^ places → result ≡ scaled_by places fraction.now }
{
    let den = fraction.den();
    (2 * unit * fraction.num() + den) / (2 * den)
}

// Appends a number in this many digits, with zeros before it.
fn push_padded(text: &mut Vec<u8>, digits: u8, number: u128) -> Result<(), Stop>
    ensures ok { OnOk result (text.new.items ≡ text.old.items ++ padded digits number) }
    ensures err { IfErr result (λ e. e ≡ out_of_memory) }
{
    let mut buffer = Buffer::new();
    let written = buffer.format(number).as_bytes();
    push_zeros(text, usize::from(digits).saturating_sub(written.len()))?;
    text.extend_from_slice(written)?;
    Ok(())
}

fn push_zeros(text: &mut Vec<u8>, count: usize) -> Result<(), Stop>
    ensures ok { OnOk result (text.new.items ≡ text.old.items ++ replicate count 48) }
    ensures err { IfErr result (λ e. e ≡ out_of_memory) }
{
    for _ in 0..count {
        text.push(b'0')?;
    }
    Ok(())
}
