//! The bytes of the gates.

ghost use Rattle.std.specs.Prelude.{◌≡◌};
ghost use Rattle.erim_defs.specs.Inspection.Gate.{gate_in, gate_out};

/// `xor ecx, ecx`, `xor edx, edx`, `mov eax, 0x55555550`, `wrpkru`.
const GATE_IN: [u8; 12] = [
    0x31, 0xC9, 0x31, 0xD2, 0xB8, 0x50, 0x55, 0x55, 0x55, 0x0F, 0x01, 0xEF,
];

/// `xor ecx, ecx`, `xor edx, edx`, `mov eax, 0x55555554`, `wrpkru`, and the check: `cmp eax,
/// 0x55555554`, `je` over the rest, `mov eax, 231`, `syscall`.
const GATE_OUT: [u8; 26] = [
    0x31, 0xC9, 0x31, 0xD2, 0xB8, 0x54, 0x55, 0x55, 0x55, 0x0F, 0x01, 0xEF, 0x3D, 0x54, 0x55, 0x55,
    0x55, 0x74, 0x07, 0xB8, 0xE7, 0x00, 0x00, 0x00, 0x0F, 0x05,
];

/// Writes the gate into trusted text. An entry has to follow it.
#[tactic(auto, unfolding(erim_defs::specs::Inspection::Gate::gate_in))]
pub fn gate_in(into: &mut [u8; 12])
    ensures { into.new ≡ gate_in }
{
    *into = GATE_IN;
}

/// Writes the gate out of trusted text. It ends with the check.
pub fn gate_out(into: &mut [u8; 26])
    ensures { into.new ≡ gate_out }
{
    *into = GATE_OUT;
}
