//! What the table of opcodes is made of: its rows, and the fields of an encoding (SDM volume 2,
//! chapter 2, "Instruction format"). A form's name ends with its operand encoding, the code in the
//! column "Op/En" of the table "Instruction Operand Encoding" on the instruction's page (SDM volume
//! 2, chapters 3 to 5): MR is r/m and then reg of the ModRM byte, RM reg and then r/m, MI r/m and
//! an immediate, RMI all three, M r/m alone, M1 r/m and the number 1, MC r/m and CL, I the
//! accumulator or nothing and an immediate, O the register in the opcode, OI that and an immediate,
//! D a relative offset, and ZO no operand.

use crate::insn::Place;

/// A REX byte's bits; none is set where there is no REX.
#[derive(Clone, Copy)]
pub struct Rex {
    /// There is one.
    pub any: bool,
    pub w: bool,
    pub r: bool,
    pub x: bool,
    pub b: bool,
}

/// What stands before an opcode: legacy prefixes and REX (SDM volume 2, "Instruction prefixes",
/// "REX prefixes").
#[derive(Clone, Copy)]
pub struct Lead {
    /// How many bytes.
    pub skip: u8,
    /// F0 is among them.
    pub lock: bool,
    /// 66, the operand-size prefix, is among them.
    pub size_prefix: bool,
    /// F3 is among them.
    pub f3: bool,
    pub rex: Rex,
}

/// Which instruction a row encodes, and of which operands. An immediate or a relative offset ends
/// the encoding.
#[derive(Clone, Copy)]
pub enum Form {
    Arithmetic(Arithmetic),
    Move(Move),
    Flow(Flow),
    Exchange(Exchange),
    System(System),
}

/// Arithmetic, logic and bits.
#[derive(Clone, Copy)]
pub enum Arithmetic {
    /// ADD, OR, ADC, SBB, AND, SUB, XOR or CMP of r/m and reg, to r/m.
    AluMr,
    /// The same of reg and r/m, to reg.
    AluRm,
    /// The same of the accumulator and an immediate, to the accumulator.
    AluI,
    /// The same of r/m and an immediate, to r/m.
    AluMi,
    /// TEST of r/m and reg.
    TestMr,
    /// TEST of the accumulator and an immediate.
    TestI,
    /// TEST of r/m and an immediate.
    TestMi,
    /// IMUL of reg and r/m, to reg.
    ImulRm,
    /// IMUL of r/m and an immediate, to reg.
    ImulRmi,
    /// NOT, NEG, INC or DEC of r/m.
    UnaryM,
    /// SHL, SHR or SAR of r/m by an immediate.
    ShiftMi,
    /// The same by 1.
    ShiftM1,
    /// The same by CL.
    ShiftMc,
    /// BT of r/m and an immediate.
    BtMi,
}

/// Moves, with extension or on a condition.
#[derive(Clone, Copy)]
pub enum Move {
    /// MOV of reg to r/m.
    MovMr,
    /// MOV of r/m to reg.
    MovRm,
    /// MOV of an immediate to the byte register in the opcode.
    MovByteOi,
    /// MOV of an immediate to the register in the opcode.
    MovOi,
    /// MOV of an immediate to r/m.
    MovMi,
    /// MOV of an immediate of 8 bytes to the register in the opcode.
    MovWideOi,
    /// The address of r/m to reg.
    LeaRm,
    /// r/m of 4 bytes, signed, to reg.
    MovSxdRm,
    /// r/m of 1 byte to reg.
    MovZxByteRm,
    /// r/m of 2 bytes to reg.
    MovZxWordRm,
    /// r/m of 1 byte, signed, to reg.
    MovSxByteRm,
    /// r/m of 2 bytes, signed, to reg.
    MovSxWordRm,
    /// CWDE or CDQE.
    WidenZo,
    /// CDQ or CQO.
    SpreadZo,
    /// r/m to reg on the condition in the opcode.
    CmovRm,
    /// The condition in the opcode to r/m of 1 byte.
    SetM,
}

/// Jumps, calls and the stack.
#[derive(Clone, Copy)]
pub enum Flow {
    /// A jump on the condition in the opcode.
    JccD,
    /// A jump.
    JmpD,
    /// A call.
    CallD,
    /// A jump to the address in r/m.
    JmpM,
    /// A call of the address in r/m.
    CallM,
    RetZo,
    /// PUSH of the register in the opcode.
    PushO,
    /// PUSH of an immediate.
    PushI,
    /// PUSH of r/m.
    PushM,
    /// POP to the register in the opcode.
    PopO,
    LeaveZo,
}

/// Exchanges of r/m and reg.
#[derive(Clone, Copy)]
pub enum Exchange {
    /// XCHG, to both.
    XchgMr,
    /// CMPXCHG, to r/m.
    CmpxchgMr,
    /// XADD, to both.
    XaddMr,
}

/// System instructions, fences and NOP.
#[derive(Clone, Copy)]
pub enum System {
    SyscallZo,
    WrpkruZo,
    RdpkruZo,
    /// XRSTOR from r/m.
    XrstorM,
    /// The fence that reg numbers, an opcode extension.
    FenceZo,
    Nop,
}

/// What a row of the table says beside its opcodes.
#[derive(Clone, Copy)]
pub struct Row {
    pub form: Form,
    /// Bytes of the immediate or relative offset that ends it.
    pub imm: u8,
    /// F0 may stand before it, where its destination is in memory.
    pub locks: bool,
    /// 66 may stand before it.
    pub size_prefix: bool,
    /// REX.B may not be set.
    pub low: bool,
}

/// What an encoding has, but for its immediate.
#[derive(Clone, Copy)]
pub struct Fields {
    /// The opcode, without the escape opcode 0F.
    pub op: u8,
    /// The ModRM byte, or 0.
    pub m: u8,
    pub rex: Rex,
    pub lock: bool,
    /// What r/m names, with SIB and displacement.
    pub place: Place,
}

/// Why reading an instruction stops.
#[derive(Clone, Copy)]
pub enum Stop {
    /// Nothing that begins so is an instruction.
    Undefined,
    /// A given number of bytes are missing at the least.
    Short(u8),
}
