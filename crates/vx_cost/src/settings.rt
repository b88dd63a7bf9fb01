//! Settings: words that put costs into a table.
//!
//! The one entry point is `with_settings`. A setting is `KEY=N`, with a key's name and a number from 0 to 1,000,000 in decimal
//! digits without sign or leading zero. The words are read in order, up to the first fault: a word that is no setting, or one
//! that sets a key once more. No memory is taken.

ghost use Rattle.std.specs.Prelude.{◌≡◌, ℕ, ◌+◌, ◌<◌, ◌≤◌, ◌^◌, ◌↔◌, length, map, string_bytes, IsOk, IfOk, IfSome, IfNone, Err};
ghost use Rattle.std.specs.Fmt.{decimal};
ghost use Rattle.vx_cost.specs.Settings.{IsSetting, IsBadAt, IsTwiceAt, IsFaultyAt, IsFirstFault, IsTableWith};
ghost use Rattle.vx_cost.specs.declared.key.Key.{Key};

use crate::SettingRefusal;
use crate::key::Key;
use ir_types::Table;
use itoa::Buffer;

/// A cost for a key.
#[derive(Clone, Copy, Debug)]
struct Setting {
    key: Key,
    cost: u32,
}

/// The table in which each key that a word sets has the cost that it gives, and each other key its cost in `t`.
///
/// The number of words is fewer than 2^32 - 1.
///
/// Refusals name the first faulty word: `BadSetting` where it is not a setting, `TwiceSet` where it sets a key that a word
/// before it sets.
pub fn with_settings(t: Table, words: &[String]) -> Result<Table, SettingRefusal>
    requires few { length words.now + 1 < 2 ^ 32 }
    ensures ok { IfOk result (IsTableWith (map string_bytes words.now) t) }
    ensures good { IsOk result ↔ ((k : ℕ) → IsFaultyAt (map string_bytes words.now) k → ⊥) }
    ensures bad { (k : ℕ) → ((result ≡ Err (SettingRefusal.BadSetting k))
        ↔ (IsFirstFault (map string_bytes words.now) k × IsBadAt (map string_bytes words.now) k)) }
    ensures twice { (k : ℕ) → ((result ≡ Err (SettingRefusal.TwiceSet k))
        ↔ (IsFirstFault (map string_bytes words.now) k × IsTwiceAt (map string_bytes words.now) k)) }
{
    let mut table = t;
    let mut taken = [false; 20];
    let mut index = 0;
    for word in words {
        let Some(setting) = setting_of(word.as_str()) else {
            return Err(SettingRefusal::BadSetting { index });
        };
        let place = setting.key.place();
        if taken[place] {
            return Err(SettingRefusal::TwiceSet { index });
        }
        taken[place] = true;
        table.costs[place] = setting.cost;
        index += 1;
    }
    Ok(table)
}

/// What a word sets, if it is a setting.
fn setting_of(word: &str) -> Option<Setting>
    ensures found { IfSome result (λ s. IsSetting word.now s.key s.cost) }
    ensures none { IfNone result ((key : Key) (n : ℕ) → IsSetting word.now key n → ⊥) }
{
    let (name, digits) = word.split_once('=')?;
    let key = Key::named(name)?;
    let cost = cost_in(digits)?;
    Some(Setting { key, cost })
}

/// The number that digits write, if it is at most 1,000,000 and they have no leading zero.
fn cost_in(digits: &str) -> Option<u32>
    ensures found { IfSome result (λ n. (digits.now ≡ decimal n) × (n ≤ 1000000)) }
    ensures none { IfNone result ((n : ℕ) → digits.now ≡ decimal n → n ≤ 1000000 → ⊥) }
{
    let Ok(n) = digits.parse::<u32>() else {
        return None;
    };
    let mut buffer = Buffer::new();
    if n <= 1_000_000 && buffer.format(n) == digits {
        Some(n)
    } else {
        None
    }
}
