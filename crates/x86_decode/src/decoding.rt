//! Decoding: what bytes begin with.

ghost use Rattle.std.specs.Prelude.{◌≡◌, ℕ, List};
ghost use Rattle.erim_defs.specs.Encoding.Parts.{AreBytes};
ghost use Rattle.erim_defs.specs.Encoding.Decodes.{Decodes, DecodesEncodings, PrefixFree};
ghost use Rattle.erim_defs.specs.Encoding.Decoding.{decode};
ghost use Rattle.erim_defs.specs.Encoding.Decodes.{IsWhole};
ghost use Rattle.erim_defs.specs.Encoding.Decoding.{IsWindow};

use crate::front::front_at;
use erim_defs::Decoded;
use erim_defs::grammar::Stop;

/// How many bytes an encoding can have (SDM volume 2, "Instruction format").
const LIMIT: usize = 15;

/// The front of the bytes that an encoding can have.
#[tactic(auto, using(encoding_laws::proofs::EncodingLemmas::window_take, encoding_laws::proofs::EncodingLemmas::window_all))]
pub fn window_of(bytes: &[u8]) -> &[u8]
    ensures { IsWindow bytes.now result.now }
{
    if bytes.len() > LIMIT {
        &bytes[..LIMIT]
    } else {
        bytes
    }
}

/// The answer, under the limit of an encoding's size.
fn decode_window(bytes: &[u8]) -> Decoded
    ensures { Decodes bytes.now result }
{
    let window = window_of(bytes);
    match front_at(0, false, false, window) {
        Ok((insn, sizes, rest)) => {
            Decoded::Insn {
                insn,
                len: (window.len() - rest.len()) as u8,
                skip: sizes.skip,
            }
        }
        Err(Stop::Short(n)) => {
            if window.len() + n as usize <= LIMIT {
                Decoded::Short
            } else {
                Decoded::Undefined
            }
        }
        Err(Stop::Undefined) => Decoded::Undefined,
    }
}

/// What the bytes begin with: an instruction, the beginning of one, or neither. Takes no memory.
pub fn decode(bytes: &[u8]) -> Decoded
    ensures exact { Decodes bytes.now result }
    ensures encodings { DecodesEncodings bytes.now result }
    ensures function { result ≡ decode bytes.now }
    ensures whole { IsWhole bytes.now result }
{
    decode_window(bytes)
}

/// At most one instruction, and no encoding begins another.
pub fn prefix_free()
    ensures { PrefixFree }
{}

/// The function on lists is what the relation says.
pub fn decode_is_exact()
    ensures { (bytes : List ℕ) → AreBytes bytes → Decodes bytes (decode bytes) }
{}
