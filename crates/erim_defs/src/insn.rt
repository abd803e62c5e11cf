//! Instructions, what bytes begin with, and what stands at an address of a code.

/// How many bytes an instruction works on.
#[derive(Clone, Copy, PartialEq, Eq)]
pub enum Width {
    W1,
    W4,
    W8,
}

/// What an address in memory starts from.
#[derive(Clone, Copy)]
pub enum Base {
    /// Nothing.
    Zero,
    /// A register, by its number.
    Reg(u8),
    /// The address of the next instruction.
    Rip,
}

/// A place in memory: base + index * 2^scale + disp.
#[derive(Clone, Copy)]
pub struct Mem {
    pub base: Base,
    /// A register, by its number.
    pub index: Option<u8>,
    pub scale: u8,
    pub disp: i32,
}

/// Where an operand stands.
#[derive(Clone, Copy)]
pub enum Place {
    /// A register, by its number.
    Reg(u8),
    /// The second byte of register 0 to 3: AH, CH, DH or BH.
    High(u8),
    /// In memory.
    At(Mem),
}

/// What an operand is.
#[derive(Clone, Copy)]
pub enum Src {
    /// What stands at a place.
    From(Place),
    /// An immediate, signed.
    Imm(i32),
}

/// Arithmetic and logic of two operands.
#[derive(Clone, Copy)]
pub enum AluOp {
    Add,
    Or,
    Adc,
    Sbb,
    And,
    Sub,
    Xor,
    Cmp,
}

/// A shift.
#[derive(Clone, Copy)]
pub enum ShiftOp {
    Shl,
    Shr,
    Sar,
}

/// Arithmetic and logic of one operand.
#[derive(Clone, Copy)]
pub enum UnaryOp {
    Not,
    Neg,
    Inc,
    Dec,
}

/// How far to shift.
#[derive(Clone, Copy)]
pub enum By {
    /// By an immediate.
    Count(u8),
    /// By what CL holds.
    Cl,
}

/// An instruction. Registers and conditions go by their numbers, `rel` is the relative offset from
/// the next instruction, and `lock` says whether F0 stands before it.
#[derive(Clone, Copy)]
pub enum Insn {
    /// Arithmetic and logic of two operands.
    Alu {
        op: AluOp,
        w: Width,
        dst: Place,
        src: Src,
        lock: bool,
    },
    /// TEST: the flags of AND.
    Test {
        w: Width,
        a: Place,
        src: Src,
    },
    /// XCHG.
    Xchg {
        w: Width,
        a: Place,
        r: Place,
        lock: bool,
    },
    /// MOV. An immediate is extended with its sign to the width.
    Mov {
        w: Width,
        dst: Place,
        src: Src,
    },
    /// MOV of 8 bytes in the instruction to a register.
    MovWide {
        r: u8,
        imm: u64,
    },
    /// LEA.
    Lea {
        w: Width,
        r: u8,
        m: Mem,
    },
    /// PUSH of 8 bytes.
    Push {
        src: Src,
    },
    /// POP of 8 bytes to a register.
    Pop {
        r: u8,
    },
    /// MOVSXD: 4 bytes, signed, to 8.
    MovSxd {
        r: u8,
        src: Place,
    },
    /// MOVZX of `from` bytes, 1 or 2.
    MovZx {
        w: Width,
        r: u8,
        from: u8,
        src: Place,
    },
    /// MOVSX of `from` bytes, 1 or 2.
    MovSx {
        w: Width,
        r: u8,
        from: u8,
        src: Place,
    },
    /// IMUL to a register: of itself and `a`, or of `a` and the immediate `b`.
    Imul {
        w: Width,
        r: u8,
        a: Place,
        b: Option<i32>,
    },
    /// A jump where a condition holds.
    Jcc {
        c: u8,
        rel: i32,
    },
    /// A jump.
    Jmp {
        rel: i32,
    },
    /// A call.
    Call {
        rel: i32,
    },
    /// A jump to the address that stands at a place.
    JmpTo {
        to: Place,
    },
    /// A call of the address that stands at a place.
    CallTo {
        to: Place,
    },
    /// RET.
    Ret,
    /// LEAVE.
    Leave,
    /// CWDE or CDQE: the lower half of RAX, signed, to the width.
    Widen {
        w: Width,
    },
    /// CDQ or CQO: the sign of RAX to all of RDX.
    Spread {
        w: Width,
    },
    /// A shift.
    Shift {
        op: ShiftOp,
        w: Width,
        dst: Place,
        by: By,
    },
    /// Arithmetic and logic of one operand.
    Unary {
        op: UnaryOp,
        w: Width,
        dst: Place,
        lock: bool,
    },
    /// MOV where a condition holds.
    Cmov {
        c: u8,
        w: Width,
        r: u8,
        src: Place,
    },
    /// SETcc: 1 where a condition holds, else 0.
    Set {
        c: u8,
        dst: Place,
    },
    /// BT: one bit.
    Bt {
        w: Width,
        a: Place,
        bit: u8,
    },
    /// CMPXCHG.
    Cmpxchg {
        w: Width,
        dst: Place,
        r: Place,
        lock: bool,
    },
    /// XADD.
    Xadd {
        w: Width,
        dst: Place,
        r: Place,
        lock: bool,
    },
    /// SYSCALL.
    Syscall,
    /// WRPKRU.
    Wrpkru,
    /// RDPKRU.
    Rdpkru,
    /// XRSTOR.
    Xrstor {
        m: Mem,
    },
    /// LFENCE 5, MFENCE 6 or SFENCE 7.
    Fence {
        kind: u8,
    },
    /// NOP.
    Nop,
}

/// What bytes begin with.
#[derive(Clone, Copy)]
pub enum Decoded {
    /// An instruction of a given number of bytes, `skip` of them before its opcode.
    Insn { insn: Insn, len: u8, skip: u8 },
    /// No instruction, whatever follows.
    Undefined,
    /// The beginning of some instruction.
    Short,
}

/// What stands at an address of a code.
#[derive(Clone, Copy)]
pub enum FetchOutcome {
    /// An instruction of a given number of bytes, `skip` of them before its opcode.
    Runs { insn: Insn, len: u8, skip: u8 },
    /// More bytes are needed, from this absent address on.
    Need { addr: u64 },
    /// No instruction.
    Wrong,
}
