use crate::behaviour::Behaviour;
use crate::behaviour::Behaviour::{
    Access, ArrayLength, ArrayLoad, ArrayStore, Cast, Compute, Constant, Increment, InstanceOf,
    Invoke, Jump, Load, Loaded, Monitor, New, NewArray, NewArrays, Nothing, Rearrange, Return,
    Store, Switch, Test, Throw,
};
use crate::behaviour::Elements::{Primitives, References};
use crate::behaviour::FieldAccess::{GetField, GetStatic, PutField, PutStatic};
use crate::behaviour::Invocation::{Interface, Special, Static, Virtual};
use crate::behaviour::Operands::{One, Two};
use crate::behaviour::Rearrangement::{Dup, Dup2, Dup2X1, Dup2X2, DupX1, DupX2, Pop, Pop2, Swap};
use crate::behaviour::Source::{Fixed, Operand};
use crate::form::{Entry, Form};
use ja_base::Kind::{P1, P2, R};

/// What is said of one opcode.
pub(crate) struct Row {
    pub number: u8,
    pub mnemonic: &'static str,
    pub form: Form,
    /// What it does; None where no decoded instruction has it.
    pub behaviour: Option<Behaviour>,
}

macro_rules! optional {
    () => { None };
    ($value:expr) => { Some($value) };
}

macro_rules! opcodes {
    ($($number:literal $mnemonic:literal $form:ident $(($entry:ident))? $(=> $behaviour:expr)?;)*) => {
        [$(Row {
            number: $number,
            mnemonic: $mnemonic,
            form: Form::$form $((Entry::$entry))?,
            behaviour: optional!($($behaviour)?),
        },)*]
    };
}

/// The opcodes by their numbers (JVM specification 6.5 and 7): the mnemonic, the operands, and what the opcode does
/// with locals and stack. `jsr`, `ret`, `invokedynamic` and `jsr_w` are refused, and `wide` is no instruction of its
/// own: no decoded instruction has them, and nothing is said of what they do.
pub(crate) static OPCODES: [Row; 202] = opcodes![
    0 "nop" Plain => Nothing;
    1 "aconst_null" Plain => Constant(R);
    2 "iconst_m1" Plain => Constant(P1);
    3 "iconst_0" Plain => Constant(P1);
    4 "iconst_1" Plain => Constant(P1);
    5 "iconst_2" Plain => Constant(P1);
    6 "iconst_3" Plain => Constant(P1);
    7 "iconst_4" Plain => Constant(P1);
    8 "iconst_5" Plain => Constant(P1);
    9 "lconst_0" Plain => Constant(P2);
    10 "lconst_1" Plain => Constant(P2);
    11 "fconst_0" Plain => Constant(P1);
    12 "fconst_1" Plain => Constant(P1);
    13 "fconst_2" Plain => Constant(P1);
    14 "dconst_0" Plain => Constant(P2);
    15 "dconst_1" Plain => Constant(P2);
    16 "bipush" Byte => Constant(P1);
    17 "sipush" Short => Constant(P1);
    18 "ldc" ByteIndex => Loaded;
    19 "ldc_w" Index(Loadable) => Loaded;
    20 "ldc2_w" Index(TwoWord) => Constant(P2);
    21 "iload" Local => Load(P1, Operand);
    22 "lload" Local => Load(P2, Operand);
    23 "fload" Local => Load(P1, Operand);
    24 "dload" Local => Load(P2, Operand);
    25 "aload" Local => Load(R, Operand);
    26 "iload_0" Plain => Load(P1, Fixed(0));
    27 "iload_1" Plain => Load(P1, Fixed(1));
    28 "iload_2" Plain => Load(P1, Fixed(2));
    29 "iload_3" Plain => Load(P1, Fixed(3));
    30 "lload_0" Plain => Load(P2, Fixed(0));
    31 "lload_1" Plain => Load(P2, Fixed(1));
    32 "lload_2" Plain => Load(P2, Fixed(2));
    33 "lload_3" Plain => Load(P2, Fixed(3));
    34 "fload_0" Plain => Load(P1, Fixed(0));
    35 "fload_1" Plain => Load(P1, Fixed(1));
    36 "fload_2" Plain => Load(P1, Fixed(2));
    37 "fload_3" Plain => Load(P1, Fixed(3));
    38 "dload_0" Plain => Load(P2, Fixed(0));
    39 "dload_1" Plain => Load(P2, Fixed(1));
    40 "dload_2" Plain => Load(P2, Fixed(2));
    41 "dload_3" Plain => Load(P2, Fixed(3));
    42 "aload_0" Plain => Load(R, Fixed(0));
    43 "aload_1" Plain => Load(R, Fixed(1));
    44 "aload_2" Plain => Load(R, Fixed(2));
    45 "aload_3" Plain => Load(R, Fixed(3));
    46 "iaload" Plain => ArrayLoad(P1);
    47 "laload" Plain => ArrayLoad(P2);
    48 "faload" Plain => ArrayLoad(P1);
    49 "daload" Plain => ArrayLoad(P2);
    50 "aaload" Plain => ArrayLoad(R);
    51 "baload" Plain => ArrayLoad(P1);
    52 "caload" Plain => ArrayLoad(P1);
    53 "saload" Plain => ArrayLoad(P1);
    54 "istore" Local => Store(P1, Operand);
    55 "lstore" Local => Store(P2, Operand);
    56 "fstore" Local => Store(P1, Operand);
    57 "dstore" Local => Store(P2, Operand);
    58 "astore" Local => Store(R, Operand);
    59 "istore_0" Plain => Store(P1, Fixed(0));
    60 "istore_1" Plain => Store(P1, Fixed(1));
    61 "istore_2" Plain => Store(P1, Fixed(2));
    62 "istore_3" Plain => Store(P1, Fixed(3));
    63 "lstore_0" Plain => Store(P2, Fixed(0));
    64 "lstore_1" Plain => Store(P2, Fixed(1));
    65 "lstore_2" Plain => Store(P2, Fixed(2));
    66 "lstore_3" Plain => Store(P2, Fixed(3));
    67 "fstore_0" Plain => Store(P1, Fixed(0));
    68 "fstore_1" Plain => Store(P1, Fixed(1));
    69 "fstore_2" Plain => Store(P1, Fixed(2));
    70 "fstore_3" Plain => Store(P1, Fixed(3));
    71 "dstore_0" Plain => Store(P2, Fixed(0));
    72 "dstore_1" Plain => Store(P2, Fixed(1));
    73 "dstore_2" Plain => Store(P2, Fixed(2));
    74 "dstore_3" Plain => Store(P2, Fixed(3));
    75 "astore_0" Plain => Store(R, Fixed(0));
    76 "astore_1" Plain => Store(R, Fixed(1));
    77 "astore_2" Plain => Store(R, Fixed(2));
    78 "astore_3" Plain => Store(R, Fixed(3));
    79 "iastore" Plain => ArrayStore(P1);
    80 "lastore" Plain => ArrayStore(P2);
    81 "fastore" Plain => ArrayStore(P1);
    82 "dastore" Plain => ArrayStore(P2);
    83 "aastore" Plain => ArrayStore(R);
    84 "bastore" Plain => ArrayStore(P1);
    85 "castore" Plain => ArrayStore(P1);
    86 "sastore" Plain => ArrayStore(P1);
    87 "pop" Plain => Rearrange(Pop);
    88 "pop2" Plain => Rearrange(Pop2);
    89 "dup" Plain => Rearrange(Dup);
    90 "dup_x1" Plain => Rearrange(DupX1);
    91 "dup_x2" Plain => Rearrange(DupX2);
    92 "dup2" Plain => Rearrange(Dup2);
    93 "dup2_x1" Plain => Rearrange(Dup2X1);
    94 "dup2_x2" Plain => Rearrange(Dup2X2);
    95 "swap" Plain => Rearrange(Swap);
    96 "iadd" Plain => Compute { operands: Two(P1, P1), result: P1, throws: false };
    97 "ladd" Plain => Compute { operands: Two(P2, P2), result: P2, throws: false };
    98 "fadd" Plain => Compute { operands: Two(P1, P1), result: P1, throws: false };
    99 "dadd" Plain => Compute { operands: Two(P2, P2), result: P2, throws: false };
    100 "isub" Plain => Compute { operands: Two(P1, P1), result: P1, throws: false };
    101 "lsub" Plain => Compute { operands: Two(P2, P2), result: P2, throws: false };
    102 "fsub" Plain => Compute { operands: Two(P1, P1), result: P1, throws: false };
    103 "dsub" Plain => Compute { operands: Two(P2, P2), result: P2, throws: false };
    104 "imul" Plain => Compute { operands: Two(P1, P1), result: P1, throws: false };
    105 "lmul" Plain => Compute { operands: Two(P2, P2), result: P2, throws: false };
    106 "fmul" Plain => Compute { operands: Two(P1, P1), result: P1, throws: false };
    107 "dmul" Plain => Compute { operands: Two(P2, P2), result: P2, throws: false };
    108 "idiv" Plain => Compute { operands: Two(P1, P1), result: P1, throws: true };
    109 "ldiv" Plain => Compute { operands: Two(P2, P2), result: P2, throws: true };
    110 "fdiv" Plain => Compute { operands: Two(P1, P1), result: P1, throws: false };
    111 "ddiv" Plain => Compute { operands: Two(P2, P2), result: P2, throws: false };
    112 "irem" Plain => Compute { operands: Two(P1, P1), result: P1, throws: true };
    113 "lrem" Plain => Compute { operands: Two(P2, P2), result: P2, throws: true };
    114 "frem" Plain => Compute { operands: Two(P1, P1), result: P1, throws: false };
    115 "drem" Plain => Compute { operands: Two(P2, P2), result: P2, throws: false };
    116 "ineg" Plain => Compute { operands: One(P1), result: P1, throws: false };
    117 "lneg" Plain => Compute { operands: One(P2), result: P2, throws: false };
    118 "fneg" Plain => Compute { operands: One(P1), result: P1, throws: false };
    119 "dneg" Plain => Compute { operands: One(P2), result: P2, throws: false };
    120 "ishl" Plain => Compute { operands: Two(P1, P1), result: P1, throws: false };
    121 "lshl" Plain => Compute { operands: Two(P2, P1), result: P2, throws: false };
    122 "ishr" Plain => Compute { operands: Two(P1, P1), result: P1, throws: false };
    123 "lshr" Plain => Compute { operands: Two(P2, P1), result: P2, throws: false };
    124 "iushr" Plain => Compute { operands: Two(P1, P1), result: P1, throws: false };
    125 "lushr" Plain => Compute { operands: Two(P2, P1), result: P2, throws: false };
    126 "iand" Plain => Compute { operands: Two(P1, P1), result: P1, throws: false };
    127 "land" Plain => Compute { operands: Two(P2, P2), result: P2, throws: false };
    128 "ior" Plain => Compute { operands: Two(P1, P1), result: P1, throws: false };
    129 "lor" Plain => Compute { operands: Two(P2, P2), result: P2, throws: false };
    130 "ixor" Plain => Compute { operands: Two(P1, P1), result: P1, throws: false };
    131 "lxor" Plain => Compute { operands: Two(P2, P2), result: P2, throws: false };
    132 "iinc" Increment => Increment;
    133 "i2l" Plain => Compute { operands: One(P1), result: P2, throws: false };
    134 "i2f" Plain => Compute { operands: One(P1), result: P1, throws: false };
    135 "i2d" Plain => Compute { operands: One(P1), result: P2, throws: false };
    136 "l2i" Plain => Compute { operands: One(P2), result: P1, throws: false };
    137 "l2f" Plain => Compute { operands: One(P2), result: P1, throws: false };
    138 "l2d" Plain => Compute { operands: One(P2), result: P2, throws: false };
    139 "f2i" Plain => Compute { operands: One(P1), result: P1, throws: false };
    140 "f2l" Plain => Compute { operands: One(P1), result: P2, throws: false };
    141 "f2d" Plain => Compute { operands: One(P1), result: P2, throws: false };
    142 "d2i" Plain => Compute { operands: One(P2), result: P1, throws: false };
    143 "d2l" Plain => Compute { operands: One(P2), result: P2, throws: false };
    144 "d2f" Plain => Compute { operands: One(P2), result: P1, throws: false };
    145 "i2b" Plain => Compute { operands: One(P1), result: P1, throws: false };
    146 "i2c" Plain => Compute { operands: One(P1), result: P1, throws: false };
    147 "i2s" Plain => Compute { operands: One(P1), result: P1, throws: false };
    148 "lcmp" Plain => Compute { operands: Two(P2, P2), result: P1, throws: false };
    149 "fcmpl" Plain => Compute { operands: Two(P1, P1), result: P1, throws: false };
    150 "fcmpg" Plain => Compute { operands: Two(P1, P1), result: P1, throws: false };
    151 "dcmpl" Plain => Compute { operands: Two(P2, P2), result: P1, throws: false };
    152 "dcmpg" Plain => Compute { operands: Two(P2, P2), result: P1, throws: false };
    153 "ifeq" Branch => Test(One(P1));
    154 "ifne" Branch => Test(One(P1));
    155 "iflt" Branch => Test(One(P1));
    156 "ifge" Branch => Test(One(P1));
    157 "ifgt" Branch => Test(One(P1));
    158 "ifle" Branch => Test(One(P1));
    159 "if_icmpeq" Branch => Test(Two(P1, P1));
    160 "if_icmpne" Branch => Test(Two(P1, P1));
    161 "if_icmplt" Branch => Test(Two(P1, P1));
    162 "if_icmpge" Branch => Test(Two(P1, P1));
    163 "if_icmpgt" Branch => Test(Two(P1, P1));
    164 "if_icmple" Branch => Test(Two(P1, P1));
    165 "if_acmpeq" Branch => Test(Two(R, R));
    166 "if_acmpne" Branch => Test(Two(R, R));
    167 "goto" Branch => Jump;
    168 "jsr" Branch;
    169 "ret" Local;
    170 "tableswitch" TableSwitch => Switch;
    171 "lookupswitch" LookupSwitch => Switch;
    172 "ireturn" Plain => Return(Some(P1));
    173 "lreturn" Plain => Return(Some(P2));
    174 "freturn" Plain => Return(Some(P1));
    175 "dreturn" Plain => Return(Some(P2));
    176 "areturn" Plain => Return(Some(R));
    177 "return" Plain => Return(None);
    178 "getstatic" Index(Field) => Access(GetStatic);
    179 "putstatic" Index(Field) => Access(PutStatic);
    180 "getfield" Index(Field) => Access(GetField);
    181 "putfield" Index(Field) => Access(PutField);
    182 "invokevirtual" Index(Method) => Invoke(Virtual);
    183 "invokespecial" Index(AnyMethod) => Invoke(Special);
    184 "invokestatic" Index(AnyMethod) => Invoke(Static);
    185 "invokeinterface" Interface => Invoke(Interface);
    186 "invokedynamic" Dynamic;
    187 "new" Index(Class) => New;
    188 "newarray" ArrayType => NewArray(Primitives);
    189 "anewarray" Index(Class) => NewArray(References);
    190 "arraylength" Plain => ArrayLength;
    191 "athrow" Plain => Throw;
    192 "checkcast" Index(Class) => Cast;
    193 "instanceof" Index(Class) => InstanceOf;
    194 "monitorenter" Plain => Monitor;
    195 "monitorexit" Plain => Monitor;
    196 "wide" Wide;
    197 "multianewarray" Dimensions => NewArrays;
    198 "ifnull" Branch => Test(One(R));
    199 "ifnonnull" Branch => Test(One(R));
    200 "goto_w" FarBranch => Jump;
    201 "jsr_w" FarBranch;
];
