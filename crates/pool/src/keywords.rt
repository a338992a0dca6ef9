// The key words of a slot: one for each slot, in kinds 4 and 5 two, at 2i and 2i + 1.
ghost use Rattle.std.specs.Prelude.{◌≡◌};
ghost use Rattle.pool.specs.World.{key_word0, key_word1, store_key};
ghost use Rattle.pool.specs.Fine.{Holds};

use keys::{Kind, Words};

#[tactic(auto, unfolding(crate::specs::World::key_word0, crate::specs::World::key_word1))]
pub fn key_at(kind: Kind, keys: &[u64], slot: usize) -> Words
    requires { Holds kind keys.now slot }
    ensures first { result.first ≡ key_word0 kind keys.now slot }
    ensures second { result.second ≡ key_word1 kind keys.now slot }
{
    if keys::is_wide(kind) {
        Words {
            first: keys[2 * slot],
            second: keys[2 * slot + 1],
        }
    } else {
        Words {
            first: keys[slot],
            second: 0,
        }
    }
}

#[tactic(auto, unfolding(crate::specs::World::store_key))]
pub fn store_key(kind: Kind, keys: &mut [u64], slot: usize, key: Words)
    requires { Holds kind keys.old slot }
    ensures { keys.new ≡ store_key kind keys.old slot key.first key.second }
{
    if keys::is_wide(kind) {
        keys[2 * slot] = key.first;
        keys[2 * slot + 1] = key.second;
    } else {
        keys[slot] = key.first;
    }
}
