//! Bytes of operations. What states they lead to is judged from outside, by the rows of equipment/conversations.txt with the same names;
//! here are the states that no text shows.

/// Bytes, and the state at some places: how many operations were taken, and the text of the state.
pub type Row = (&'static [u8], &'static [(usize, &'static str)]);

/// The bytes of long numbers, of which a text shows the value alone; and a machine for one pickle behind STOP, where the program
/// ends: it goes on with the stack and the memo that STOP left.
pub const UNSHOWN: [Row; 4] = [
    (
        b"\x8a\x00\x8a\x02\xff\x00",
        &[(2, "#0 long x; #1 long xff00; stack #0 #1")],
    ),
    (
        b"\x8b\x02\x00\x00\x00\x00\x80",
        &[(1, "#0 long x0080; stack #0")],
    ),
    (
        b"N.K\x01.",
        &[
            (3, "#0 none; #1 int 1; stack #1; result #0"),
            (4, "#0 none; #1 int 1; stack; result #1; results #0 #1"),
        ],
    ),
    (
        b"NNq\x00.h\x00.",
        &[
            (4, "#0 none; #1 none; stack #0; memo 0=#1; result #1"),
            (5, "#0 none; #1 none; stack #0 #1; memo 0=#1; result #1"),
            (
                6,
                "#0 none; #1 none; stack #0; memo 0=#1; result #1; results #1 #1",
            ),
        ],
    ),
];

/// For each opcode, bytes of which it is the last.
pub const OPCODES: [&[u8]; 68] = [
    // INT
    b"I00\nI01\nI001\nI\n",
    // BININT
    b"J\xfe\xff\xff\xffJ\xff\xff\xff\x7f",
    // BININT1
    b"K\x00K\xff",
    // BININT2
    b"M\x01\x02",
    // LONG
    b"L12L\n",
    // LONG1
    b"\x8a\x00\x8a\x02\xff\x00",
    // LONG4
    b"\x8b\x02\x00\x00\x00\x00\x80",
    // STRING
    b"S'a\"'\n",
    // BINSTRING
    b"T\x02\x00\x00\x00\xff\\",
    // SHORT_BINSTRING
    b"U\x01a",
    // BINBYTES
    b"B\x02\x00\x00\x00\x00\n",
    // SHORT_BINBYTES
    b"C\x01b",
    // BINBYTES8
    b"\x8e\x01\x00\x00\x00\x00\x00\x00\x00c",
    // BYTEARRAY8
    b"\x96\x01\x00\x00\x00\x00\x00\x00\x00d",
    // NEXT_BUFFER
    b"\x97N\x97",
    // READONLY_BUFFER
    b"N\x96\x00\x00\x00\x00\x00\x00\x00\x00\x98\x98",
    // NONE
    b"(N",
    // NEWTRUE
    b"\x88",
    // NEWFALSE
    b"\x89",
    // UNICODE
    b"V\xe2\x82\xac\n",
    // SHORT_BINUNICODE
    b"\x8c\x01e",
    // BINUNICODE
    b"X\x01\x00\x00\x00f",
    // BINUNICODE8
    b"\x8d\x01\x00\x00\x00\x00\x00\x00\x00g",
    // FLOAT
    b"F1.5\n",
    // BINFLOAT
    b"G?\xf0\x00\x00\x00\x00\x00\x01",
    // EMPTY_LIST
    b"]]",
    // APPEND
    b"\x96\x00\x00\x00\x00\x00\x00\x00\x00K\x01aK\x02a",
    // APPENDS
    b"]Na(K\x01K\x02K\x03e",
    // LIST
    b"N(K\x01K\x02l",
    // EMPTY_TUPLE
    b"))",
    // TUPLE
    b"N((K\x01t",
    // TUPLE1
    b"NN\x85",
    // TUPLE2
    b"NK\x01K\x02\x86",
    // TUPLE3
    b"NK\x01K\x02K\x03\x87",
    // EMPTY_DICT
    b"}}",
    // DICT
    b"N(K\x01K\x02K\x01K\x03d",
    // SETITEM
    b"]K\x00NsK\x00\x88s",
    // SETITEMS
    b"}(K\x01K\x02K\x01K\x03u",
    // EMPTY_SET
    b"\x8f",
    // ADDITEMS
    b"\x8f(K\x01K\x01\x90",
    // FROZENSET
    b"N(K\x01K\x01\x91",
    // POP
    b"NN(K\x01000",
    // DUP
    b"NK\x012",
    // MARK
    b"N((N(",
    // POP_MARK
    b"N(K\x01(K\x02K\x031",
    // GET
    b"Np18446744073709551614\n0g018446744073709551614\n",
    // BINGET
    b"Nq\xff(h\xff",
    // LONG_BINGET
    b"Nr\xff\xff\xff\xff0j\xff\xff\xff\xff",
    // PUT
    b"Np7\nNp007\n",
    // BINPUT
    b"Nq\x01q\x00",
    // LONG_BINPUT
    b"Nq\x00r\x00\x00\x00\x80",
    // MEMOIZE
    b"Nq\x01N\x94",
    // EXT1
    b"\x82\x01",
    // EXT2
    b"\x83\xff\xff",
    // EXT4
    b"\x84\xff\xff\xff\x7f",
    // GLOBAL
    b"c\n\nca b\nc\n",
    // STACK_GLOBAL
    b"NVos\nU\x01x\x93",
    // REDUCE
    b"Nc\n\n]R",
    // BUILD
    b"NNNb",
    // INST
    b"N(i\nx\n",
    // OBJ
    b"N(P1\nK\x01K\x02o",
    // NEWOBJ
    b"N\x82\x02)\x81",
    // NEWOBJ_EX
    b"NNQ)}\x92",
    // PROTO
    b"N\x80\x05\x80\x00",
    // STOP
    b"K\x01(K\x02.",
    // FRAME
    b"N\x95\xff\xff\xff\xff\xff\xff\xff\xff",
    // PERSID
    b"Pa\n",
    // BINPERSID
    b"NK\x01Q",
];

/// What changes a machine in every way, to a STOP, and free steps behind it, which end in the state that STOP left.
pub const ALL_SHAPES: &[u8] =
    b"\x80\x05\x95\x00\x00\x00\x00\x00\x00\x00\x00]\x94(K\x01C\x01aeh\x00a}\x94(h\x00NK\x02NuNNsNb\x8f(NN\x90\x86(NNt\x97\x98\x98cos\nsystem\n)R(Nios\nx\nq\x00\x94\x94\x94\x94\x94\x94\x94\x94\x94\x94\x94\x94\x94\x94(NN1((((((NN)\x85\x87t0000NN.2(h\x000(g0\n2j\x00\x00\x00\x0000000\x80\x02\x95\x00\x00\x00\x00\x00\x00\x00\x000";

/// How many operations come before the free steps.
pub const FREE_FROM: usize = 80;

/// Several pickles, one after another, for a machine that runs several.
pub const SEVERAL: [&[u8]; 11] = [
    b"N.K\x01.",
    // buffers are counted again from 0
    b"\x97.\x97.",
    b"\x97.N\x97.",
    // a mark is left behind
    b"(N.N.",
    // objects and a memo are left behind
    b"NNq\x00.NNq\x05h\x05.",
    // PROTO begins the next one, and so does FRAME
    b"(NN.\x80\x02\x95\x00\x00\x00\x00\x00\x00\x00\x00].",
    b"NNq\x01.\x95\x00\x00\x00\x00\x00\x00\x00\x00N.",
    // a mark's place is that among all operations
    b"N(N.(N(t.",
    b"N.\x82\x05.",
    // three of them, and each leaves something
    b"NN.((NN.N(N.",
    // higher than the one before was, and then as high again
    b"NN.NNN((0N.N2((N.",
];
