//! Bytes, and the lines that are given to a session over them. What these are answered is in equipment/conversations.txt.

/// The usual dump of a list with the number 1.
const DUMP: &[u8] = b"\x80\x04\x95\x06\x00\x00\x00\x00\x00\x00\x00]\x94K\x01a.";

/// Conversations over one pickle.
pub const ONE: [(&[u8], &[u8]); 18] = [
    // all kinds of lines
    (
        b"K\x012\x86.",
        b"step\nshow 0\nshow 1\nstep\nstep\nback\nstack\nobjects\nmemo\nstep\ninsert 3 NONE\n\
          undo\ninsert 3 LONG1 0f000000000000000000000000000007\nundo\nredo\nundo\nstep\nwhere\n\
          step\nfly\ngoto 1\nbreak 3\nrun\nclear 3\nrun\ngoto 5\ngoto @1\ngoto @2\n",
    ),
    // a breakpoint
    (DUMP, b"break 4\nrun\nrun\nrun\ngoto 0\nclear 4\nrun\n"),
    // a list that is appended to itself by way of the memo
    (
        b"]q\x00(h\x00h\x00e.",
        b"goto 6\nshow 0\nback\nobjects\nstack\n",
    ),
    // a list that is appended to itself
    (
        b"]2a.",
        b"step\nstep\nstep\nobjects\nstack\nback\nobjects\nstack\n",
    ),
    // an edit in a frame, and its way back
    (DUMP, b"goto 4\nreplace 4 BININT2 0100\nundo\n"),
    // an edit before the cursor
    (
        DUMP,
        b"goto 4\nreplace 4 BININT2 0100\ngoto 6\nundo\ngoto 4\nundo\n",
    ),
    // a deletion at the end of a frame
    (
        b"\x80\x04\x95\x04\x00\x00\x00\x00\x00\x00\x00N0N0N.",
        b"delete 5\nundo\nreplace 5 BININT1 07\n",
    ),
    // a memo entry that is not there
    (
        b"K\x01q\x00K\x02q\x00h\x07.",
        b"goto 3\ngoto 5\nmemo\nwhere\nrun\nrun\nmemo\n",
    ),
    // an ordered dictionary, with an item more
    (
        b"ccollections\nOrderedDict\n)R(K\x01K\x02u.",
        b"insert 6 NONE\ngoto 8\nwhere\n",
    ),
    // frames round items
    (
        b"N0N.",
        b"frame 0 4\nframe 1 1\nframe 0 1\nframe 0 6\ndelete 4\nunframe 1\nunframe 0\nundo\nundo\nundo\nredo\n",
    ),
    // back further than the records of a window of two lead, and to both ends
    (
        b"K\x01K\x02\x86q\x00.",
        b"goto 4\nobjects\nback\nmemo\nback\nback\nobjects\ngoto 5\nmemo\ngoto 0\n",
    ),
    // MEMOIZE counts entries
    (b"Nq\x05N\x94.", b"goto 4\nmemo\n"),
    // an empty frame before STOP, and numbers beyond the end
    (
        b".",
        b"frame 0 0\nstep\nstep\ndelete 0\ndelete 18446744073709551615\nframe 0 18446744073709551615\n",
    ),
    // a breakpoint moves with its item, and comes back with it
    (
        b"N0N.",
        b"break 2\ninsert 0 NONE\ndelete 3\nrun\ngoto 0\nundo\nrun\nrun\n",
    ),
    // a new item has no breakpoint of one that is gone
    (b"N.", b"insert 0 NONE\nbreak 0\nundo\ninsert 0 NONE\nrun\n"),
    // places that are not there
    (
        b"N.",
        b"back\ngoto 0\ngoto 3\nbreak 2\nclear 2\nclear 1\ngoto 2\nstep\nredo\nback\n",
    ),
    // bytes that end in an argument
    (b"X\x05\x00\x00\x00ab", b"step\nrun\ninsert 0 NONE\n"),
    // an opcode that finds too little on the stack
    (b"N00.", b"run\nrun\nstep\ngoto 4\nobjects\n"),
];

/// Conversations over several pickles.
pub const SEVERAL: [(&[u8], &[u8]); 9] = [
    // an entry of the first memo is none of the second
    (b"Nq\x00.h\x00.", b"run\nmemo\nwhere\n"),
    // a mark is left behind, and is there again after going back
    (
        b"(N.N.",
        b"goto 3\nstack\nstep\nstack\nback\nstack\nrun\ngoto 1\nstack\n",
    ),
    // an edit makes the end another, and its undo too
    (b"N.N", b"delete 2\nwhere\nundo\nwhere\n"),
    // edits in the second pickle and in the first
    (
        b"N.K\x01.",
        b"goto 3\ninsert 3 NONE\nrun\nwhere\ngoto 1\nreplace 2 BININT2 0100\n\
          insert 1 EMPTY_LIST\nrun\nobjects\nundo\ngoto 0\nundo\nundo\nundo\nredo\n",
    ),
    // an object of the second pickle, and all results
    (
        b"K\x01.]K\x02\x85a.",
        b"run\nshow 1\nwhere\nmemo\ngoto 2\nobjects\n",
    ),
    // back to the first pickle, further than the records of a window of two lead
    (
        b"K\x01K\x02\x86q\x00.K\x01K\x02\x86q\x00.",
        b"goto 7\nstack\nback\nback\nmemo\nwhere\nback\nstack\ngoto 10\nwhere\ngoto 4\ngoto 0\n",
    ),
    // no STOP is taken out, replaced or put in, and nothing is put after the last
    (
        b"N.N.",
        b"delete 1\nreplace 3 NONE\ninsert 2 STOP\nframe 4 0\nframe 1 2\ngoto 4\nstack\n",
    ),
    // the end is another after an edit, and after its undo
    (
        b"N.N",
        b"delete 2\nrun\nrun\ninsert 2 NONE\nundo\nstep\nstep\nredo\nback\nredo\n",
    ),
    // breakpoints between edits on both sides
    (
        b"N.K\x01.",
        b"goto 3\ninsert 3 NONE\nbreak 2\ngoto 1\ninsert 1 EMPTY_LIST\nrun\nundo\ngoto 1\nundo\nrun\n",
    ),
];

/// Further conversations over one pickle, of kinds that those above have not.
pub const FURTHER: [(&[u8], &[u8]); 14] = [
    (DUMP, b"run\nstack\nmemo\nwhere\n"),
    // no byte at all
    (b"", b"step\nback\n"),
    // frames that lie
    (
        b"\x95\x0b\x00\x00\x00\x00\x00\x00\x00N\x95\x00\x00\x00\x00\x00\x00\x00\x00.",
        b"unframe 0\n",
    ),
    (
        b"\x95\x02\x00\x00\x00\x00\x00\x00\x00NK\x01.",
        b"unframe 0\ninsert 2 NONE\n",
    ),
    // a call
    (b"cos\ngetcwd\n)R.", b"run\nshow 2\n"),
    // a protocol and an extension that there are not
    (b"\x80\x06N.", b"step\n"),
    (b"\x82\x00.", b"step\n"),
    // lines that are malformed
    (
        b"N.",
        b"fly\ngoto\ngoto x\ninsert 0 NOPE\ninsert 0 BININT1 0\nstep 1\ninsert 0 BININT1\n\
          insert 0 BININT1 0102\ninsert 0 STOP\ninsert 2 NONE\ninsert 3 NONE\nshow 0\n",
    ),
    // an opcode that finds too little on the stack, and the way back
    (b"N00.", b"step\nstep\nstep\nback\nback\nback\n"),
    // all items
    (b"K\x01K\x02\x86q\x00.", b"goto 1\nbreak 3\nitems\n"),
    // an argument of lines
    (b".", b"insert 0 GLOBAL 6F730a780A\nstep\nitems\n"),
    // places by their offsets
    (DUMP, b"goto @11\nwhere\nbreak @13\ngoto @14\ngoto @17\n"),
    (DUMP, b"replace @13 BININT2 0100\ngoto @15\ngoto @16\n"),
    (DUMP, b"goto @\nshow @0\nframe @0 @4\n"),
];
