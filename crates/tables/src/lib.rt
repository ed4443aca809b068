// The two constant tables: the power table 2^-(f/256) of the house exponential, and the default scale 1 / √D of a head size D.
// Every function takes any arguments: the answer is None where there is no value.
#![tactic(auto)]

pub mod table;

ghost use Rattle.std.specs.Prelude.{◌≡◌};
ghost use Rattle.tables.specs.Power.{power_entry_of};
ghost use Rattle.tables.specs.Scale.{default_scale_of};

// The entry of the power table at an index below 256, and none at any other.
#[tactic(auto, unfolding(crate::specs::Power::power_entry_of))]
pub fn power_entry(index: usize) -> Option<f32>
    ensures { result ≡ power_entry_of index }
{
    if index < 256 {
        let powers = table::POWERS;
        Some(f32::from_bits(powers[index]))
    } else {
        None
    }
}

// The default scale of a head size from 1 to 256, and none of any other.
#[tactic(auto, unfolding(crate::specs::Scale::default_scale_of, crate::specs::Scale::scale_bits))]
pub fn default_scale(head_size: usize) -> Option<f32>
    ensures { result ≡ default_scale_of head_size }
{
    if !(1..=256).contains(&head_size) {
        return None;
    }
    let scales = table::SCALES;
    Some(f32::from_bits(scales[head_size - 1]))
}
