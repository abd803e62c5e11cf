//! Protection keys (Linux, pkeys(7)).

ghost use Rattle.std.specs.Prelude.{◌≡◌, ◌<◌, ◌^◌, ◌*◌, ◌%◌, false, IfErr, IfSome, OnErr};
ghost use Rattle.erim_defs.specs.Bits.{has_bit};
ghost use Rattle.erim_defs.specs.declared.machine.Thread.{Thread};
ghost use Rattle.erim_defs.specs.Machine.State.{State, trust_of};
ghost use Rattle.erim_defs.specs.Machine.MapCalls.{with_key_rights, pkey_alloc_result};
ghost use Rattle.erim_defs.specs.Machine.MapCalls.{pkey_free_result};
ghost use Rattle.map_calls.specs.KeyAnswers.{HasKeys, is_freeable, key_answer, least_free};

use erim_defs::linux::{EINVAL, ENOSPC, KEYS};
use erim_defs::{Keys, Trust};

/// The lowest key that a program may allocate: 0 and 1 are always taken.
const LOWEST_KEY: u8 = 2;

/// Is a key below 16 taken?
fn is_taken(keys: &Keys, key: u8) -> bool
    requires { key < 16 }
    ensures { result ≡ has_bit keys.now.taken key }
{
    (keys.taken >> key) % 2 == 1
}

/// The least key that isn't taken.
fn least_free(keys: &Keys) -> Option<u8>
    ensures least { result ≡ least_free keys.now }
    ensures low { IfSome result (λ key. key < 16) }
    ensures free { IfSome result (λ key. has_bit keys.now.taken key ≡ false) }
{
    for key in LOWEST_KEY..KEYS {
        if !is_taken(keys, key) {
            return Some(key);
        }
    }
    None
}

/// Where the two bits of a key stand in PKRU, as a power of two.
fn key_place(key: u8) -> u64
    requires { key < 16 }
    ensures { result ≡ 2 ^ (2 * key) }
{
    1 << (2 * key)
}

/// PKRU with these two bits, AD and WD, for a key.
#[tactic(auto, unfolding(erim_defs::specs::Machine::MapCalls::with_key_rights))]
fn with_key_rights(pkru: u32, key: u8, bits: u8) -> u32
    requires key { key < 16 }
    requires bits { bits < 4 }
    ensures { result ≡ with_key_rights pkru key bits }
{
    let place = key_place(key);
    let old = u64::from(pkru);
    (old % place + place * (u64::from(bits) + 4 * (old / (4 * place)))) as u32
}

/// pkey_alloc(2): takes the least free key, and gives the caller's PKRU its rights.
pub fn pkey_alloc(keys: &mut Keys, pkru: &mut u32, flags: u64, rights: u64) -> Result<u64, u16>
    ensures answer { (s : State) (t : Thread) → HasKeys s t keys.old pkru.old
        → pkey_alloc_result s t flags rights ≡ key_answer s t keys.new pkru.new result }
    ensures keys { OnErr result (keys.new ≡ keys.old) }
    ensures pkru { OnErr result (pkru.new ≡ pkru.old) }
    ensures error { IfErr result (λ error. 0 < error) }
{
    if flags != 0 || rights > 3 {
        return Err(EINVAL);
    }
    match least_free(keys) {
        Some(key) => {
            keys.taken ^= 1 << key;
            *pkru = with_key_rights(*pkru, key, rights as u8);
            Ok(u64::from(key))
        }
        None => Err(ENOSPC),
    }
}

/// Is this a key that can be freed: a taken one, but 0 and domains? It stands in the low 32 bits.
fn is_freeable(trust: &Trust, keys: &Keys, key: u64) -> bool
    ensures { result ≡ is_freeable trust.now keys.now (key % 2 ^ 32) }
{
    let key = key % (1 << 32);
    if key >= u64::from(KEYS) {
        return false;
    }
    key != 0 && !trust.is_domain(key as u8) && is_taken(keys, key as u8)
}

/// pkey_free(2): frees a key. The keys of pages and PKRU stay as they are.
pub fn pkey_free(keys: &mut Keys, trust: &Trust, key: u64) -> Result<u64, u16>
    ensures answer { (s : State) (t : Thread) → HasKeys s t keys.old t.pkru
        → trust_of s ≡ trust.now
        → pkey_free_result s t key ≡ key_answer s t keys.new t.pkru result }
    ensures keys { OnErr result (keys.new ≡ keys.old) }
    ensures error { IfErr result (λ error. 0 < error) }
{
    if !is_freeable(trust, keys, key) {
        return Err(EINVAL);
    }
    keys.taken ^= 1 << (key % (1 << 32));
    Ok(0)
}
