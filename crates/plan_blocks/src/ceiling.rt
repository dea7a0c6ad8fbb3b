// The ceiling's value as 8 bytes: 0, a whole u32, or the bits of e; and its number for each part. Document 01, "Plan blocks" and "Ceiling"; document 02, A4.
// The choice stays a number: it is one in the C structure `Ceiling`, and the answers hold for choices that no plan may have.
ghost use Rattle.std.specs.Prelude.{◌≡◌, ◌+◌, ◌*◌, ◌/◌, ◌%◌, false, if◌then◌else◌, from_bits, nat_eq};
ghost use Rattle.std.specs.Float.{binary64};
ghost use Rattle.imbalance.specs.Ceiling.{zero64, unfit_choice};
ghost use Rattle.plan_blocks.specs.Word.{wrap};
ghost use Rattle.plan_blocks.specs.Plan.{unfit_value, value_of, each_of};

use imbalance::Ceiling;

// The number of two words, the lower first.
pub fn paired(low: u32, high: u32) -> u64
    ensures { result ≡ low + wrap * high }
{
    u64::from(low) + (u64::from(high) << 32)
}

// Whether the value does not fit the choice.
pub fn unfit_value(choice: u32, value: u64) -> bool
    ensures { result ≡ unfit_value choice value }
{
    match choice {
        0 | 3 => value != 0,
        1 => u64::from(u32::MAX) < value,
        2 => !imbalance::legal_bits(value),
        _ => true,
    }
}

// The whole number that the reader hands over.
pub fn whole_of(choice: u32, value: u64) -> u32
    requires { unfit_value choice value ≡ false }
    ensures { result ≡ (if nat_eq choice 1 then value else 0) }
{
    if choice == 1 { value as u32 } else { 0 }
}

// The imbalance that the reader hands over.
pub fn imbalance_of(choice: u32, value: u64) -> f64
    requires { unfit_value choice value ≡ false }
    ensures { result ≡ (if nat_eq choice 2 then from_bits binary64 value else zero64) }
{
    if choice == 2 {
        f64::from_bits(value)
    } else {
        0.0
    }
}

// The value that the writer puts down.
pub fn value_of(asked: Ceiling) -> u64
    requires { unfit_choice asked ≡ false }
    ensures { result ≡ value_of asked }
{
    match asked.choice {
        1 => u64::from(asked.whole),
        2 => asked.imbalance.to_bits(),
        _ => 0,
    }
}

// The number of each part that the writer puts down: zeros where the choice does not use them.
pub fn each_of(asked: Ceiling) -> [u32; 16]
    ensures { result ≡ each_of asked }
{
    if asked.choice == 3 {
        asked.each
    } else {
        [0; 16]
    }
}

// The lower and the upper word of a value.
pub fn low_word(value: u64) -> u32
    ensures { result ≡ value % wrap }
{
    (value & 0xffff_ffff) as u32
}

pub fn high_word(value: u64) -> u32
    ensures { result ≡ value / wrap }
{
    (value >> 32) as u32
}
