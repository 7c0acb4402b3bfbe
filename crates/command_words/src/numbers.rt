// Numbers as scenarios spell them: decimal, without leading zeros.
ghost use Rattle.std.specs.Prelude.{◌≡◌};
ghost use Rattle.std.specs.Result.{result_ok};
ghost use Rattle.scenario_text.specs.Reading.{number_of};

use scenario_text::decimal;

// The number that a word spells, where it is in its range.
#[tactic(auto, unfolding(scenario_text::specs::Reading::number_of))]
pub(crate) fn number(word: &str, least: u32, most: u32) -> Option<u32>
    ensures { result ≡ result_ok (number_of least most word.now) }
{
    match decimal(word.as_bytes()) {
        Some(number) if u64::from(least) <= number && number <= u64::from(most) => {
            Some(number as u32)
        }
        _ => None,
    }
}
