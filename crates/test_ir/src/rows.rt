//! Functions, and what their runs show.

/// A function's declarations and blocks, what x10 holds at first, the byte that an answer writes last, and what is seen:
/// a line for each look. It has `mark V`, `inlined V AT` or `part V OFFSET LENGTH` and the value of the variable or part,
/// or `none`; or how steps end, or `answer` and how a step with the answer ends, how many steps, and the block and item
/// where the run stands then.
pub type Row = (&'static str, u64, (u64, u8), &'static str);

pub const ROWS: &[Row] = &[
    // three, two and one are added round a loop
    (
        "slots 0 1\nbb 0\nADDI def:5 use:0 3\nADDI def:10 use:0 0\nbb 7\n#1 ADD def:10 use:10 use:5\n\
         mark 1 pair 1 0\nADDI def:5 use:5 -1\nBNE use:5 use:0 to:7\nbb 3\nmark 2 reg 5\nPseudoRET takes:10",
        0,
        (16, 171),
        "mark 1 none\nwent 2 0 2\nwent 1 7 0\nwent 4 7 0\nmark 1 3\nwent 4 7 0\nmark 1 5\nwent 4 7 4\nmark 1 6\n\
         went 1 3 0\nwent 1 3 1\nmark 2 0\nreturned 2 3 1\nmark 1 6",
    ),
    // a jump over a block, and one back
    (
        "slots 0 1\nbb 4\nPseudoBR to:9\nbb 2\nmark 1 -1\nPseudoRET\nbb 9\nmark 1 none\nPseudoBR to:2",
        0,
        (16, 171),
        "went 1 9 0\nwent 2 2 0\nmark 1 none\nwent 1 2 1\nmark 1 18446744073709551615\nreturned 2 2 1",
    ),
    // an answer where there is no call is passed over, a call without one waits, and of two writes of a byte the last
    // counts
    (
        "slots 0 1\nbb 0\nADDI def:10 use:0 7\nSD use:10 slot:0 0\n#2 PseudoCALL g mask takes:10 gives:10 gives:31\n\
         mark 1 pair 2 3\nmark 2 pair 2 4\nmark 3 pair 2 2\n#3 LD def:11 slot:0 0\nmark 4 pair 3 0\nmark 5 reg 8\n\
         mark 6 reg 1\nLBU def:12 use:0 16\nmark 7 reg 12\nPseudoRET",
        0,
        (16, 171),
        "answer went 0 1\nwent 1 0 2\nwaits 2 0 2\nanswer went 0 3\nwent 9 0 12\nmark 1 105\nmark 2 116\n\
         mark 3 none\nmark 4 7\nmark 5 1008\nmark 6 101\nmark 7 171\nreturned 2 0 12",
    ),
    // what isn't written gives nothing, and neither does a phi of x2. A mark of x2 sees it
    (
        "slots 0 1\nbb 0\nphi 1 slot 1\nmark 1 pair 1 0\nADDI def:10 use:0 9\nSD use:10 slot:1 0\nphi 1 slot 1\n\
         mark 1 pair 1 0\nphi 1 reg 2\nmark 2 pair 1 0\nmark 3 reg 2\nphi 1 reg 10\nmark 4 pair 1 0\nphi 1 none\n\
         mark 4 pair 1 0\nmark 5 reg 32\nphi 1 reg 40\nmark 6 pair 1 0\n#2 ADDI def:0 use:0 5\nmark 7 pair 2 0\n\
         PseudoRET",
        0,
        (16, 171),
        "went 2 0 2\nmark 1 none\nwent 4 0 6\nmark 1 9\nwent 5 0 11\nmark 2 none\nmark 3 1048576\nmark 4 9\n\
         went 7 0 18\nmark 4 none\nmark 5 none\nmark 6 none\nmark 7 0",
    ),
    // a chain is followed to its end. One that comes round, or has a part of a register, gives nothing
    (
        "slots 0 1\nbb 0\n#11 ADDI def:10 use:0 11\n#14 ADDI def:10 use:0 44\n#15 ADDI def:11 use:0 55\n\
         mark 1 pair 11 0\nmark 2 pair 14 0\nmark 2 pair 15 0\nmark 3 pair 17 0\ninlined 1 60 pair 14 0\nmark 1 5\n\
         PseudoRET",
        0,
        (16, 171),
        "went 5 0 5\nmark 1 44\nmark 2 44\nwent 4 0 9\nmark 1 5\ninlined 1 60 44\nmark 2 none\nmark 3 none",
    ),
    // a mark of the whole has the value whole, and one of a part its low bytes. Parts that overlap it have none from
    // then on, and other parts and variables keep theirs. 2^32 + 1 is 4,294,967,297
    (
        "slots 0 1\nbb 0\nmark 1 4294967297\npart 1 0 4 4294967297\npart 1 4 4 7\npart 2 0 8 9\npart 1 2 4 8\n\
         part 1 6 2 65537\ninlined 1 60 5\nmark 1 3\npart 1 0 8 -1\npart 1 8 1 -1\nPseudoRET",
        0,
        (16, 171),
        "went 1 0 1\nmark 1 4294967297\npart 1 0 4 none\nwent 1 0 2\nmark 1 none\npart 1 0 4 1\nwent 2 0 4\n\
         part 1 0 4 1\npart 1 4 4 7\npart 2 0 8 9\nmark 2 none\nwent 1 0 5\npart 1 0 4 none\npart 1 4 4 none\n\
         part 1 2 4 8\npart 2 0 8 9\nwent 1 0 6\npart 1 2 4 8\npart 1 6 2 1\nwent 2 0 8\nmark 1 3\npart 1 2 4 none\n\
         part 1 6 2 none\ninlined 1 60 5\nwent 2 0 10\nmark 1 none\npart 1 0 8 18446744073709551615\npart 1 8 1 255\n\
         part 1 8 2 none",
    ),
    // what goes to a callee, and how its step ends
    (
        "slots 0 1\nbb 0\nPseudoCALLIndirect use:10 mask takes:11\nPseudoRET",
        4096,
        (0, 0),
        "waits 1 0 0\nanswer went 0 1",
    ),
    (
        "slots 0 1\nbb 0\nPseudoTAIL g takes:10",
        4096,
        (0, 0),
        "returned 1 0 0",
    ),
    (
        "slots 0 1\nbb 0\nPseudoTAILIndirect takes:6 takes:2 takes:10",
        4096,
        (0, 0),
        "returned 1 0 0",
    ),
    (
        "slots 0 1\nbb 0\nnever g mask takes:10",
        4096,
        (0, 0),
        "returned 1 0 0",
    ),
    (
        "slots 0 1\nbb 0\nnever_by takes:10 mask",
        4096,
        (0, 0),
        "returned 1 0 0",
    ),
    (
        "slots 0 1\nbb 0\nPseudoCALL g mask\nPseudoTAILIndirect takes:10",
        4096,
        (0, 0),
        "answer went 0 1\nreturned 1 0 1",
    ),
    // an argument on the stack is in its slot up to the call, and the callee's after it. What isn't stored can't be
    // passed
    (
        "slots 0 1\nbb 0\nADDI def:11 use:0 7\nSD use:11 slot:0 0\nphi 1 slot 0\nmark 1 pair 1 0\n\
         PseudoCALL g mask outgoing:0\nphi 2 slot 0\nmark 2 pair 2 0\nLD def:12 slot:0 0\nPseudoRET",
        0,
        (0, 0),
        "went 4 0 4\nmark 1 7\nwaits 1 0 4\nanswer went 0 5\nwent 2 0 7\nmark 2 none\nfaulted 1 0 7",
    ),
    (
        "slots 0 1\nbb 0\nSD use:10 slot:0 0\nPseudoCALL g mask outgoing:0\nPseudoCALL g mask outgoing:0\nPseudoRET",
        7,
        (0, 0),
        "went 1 0 1\nanswer went 0 2\nwaits 1 0 2\nanswer faulted 0 2",
    ),
    // an access of eight bytes at x10 or an answer's write: the frame has the addresses 1,046,528 to 1,048,575.
    // Addresses wrap. What isn't written can't be read
    (
        "slots 0 1\nbb 0\nLD def:11 use:10 0\nPseudoRET",
        1_046_520,
        (1_046_520, 1),
        "went 1 0 1",
    ),
    (
        "slots 0 1\nbb 0\nLD def:11 use:10 0\nPseudoRET",
        1_046_521,
        (1_046_521, 1),
        "faulted 2 0 0",
    ),
    (
        "slots 0 1\nbb 0\nLD def:11 use:10 0\nPseudoRET",
        1_048_575,
        (1_048_575, 1),
        "faulted 2 0 0",
    ),
    (
        "slots 0 1\nbb 0\nLD def:11 use:10 0\nPseudoRET",
        1_048_576,
        (1_048_576, 1),
        "went 1 0 1",
    ),
    (
        "slots 0 1\nbb 0\nSD use:11 use:10 0\nPseudoRET",
        1_046_520,
        (1_046_520, 1),
        "went 1 0 1",
    ),
    (
        "slots 0 1\nbb 0\nSD use:11 use:10 0\nPseudoRET",
        1_046_521,
        (1_046_521, 1),
        "faulted 2 0 0",
    ),
    (
        "slots 0 1\nbb 0\nSD use:11 use:10 0\nPseudoRET",
        1_048_575,
        (1_048_575, 1),
        "faulted 2 0 0",
    ),
    (
        "slots 0 1\nbb 0\nSD use:11 use:10 0\nPseudoRET",
        18_446_744_073_709_551_612,
        (18_446_744_073_709_551_612, 1),
        "went 1 0 1",
    ),
    (
        "slots 0 1\nbb 0\nPseudoCALL g mask\nPseudoRET",
        1_046_527,
        (1_046_527, 1),
        "answer went 0 1",
    ),
    (
        "slots 0 1\nbb 0\nPseudoCALL g mask\nPseudoRET",
        1_046_528,
        (1_046_528, 1),
        "answer faulted 0 0",
    ),
    (
        "slots 0 1\nbb 0\nPseudoCALL g mask\nPseudoRET",
        1_048_575,
        (1_048_575, 1),
        "answer faulted 0 0",
    ),
    (
        "slots 0 1\nbb 0\nPseudoCALL g mask\nPseudoRET",
        1_048_576,
        (1_048_576, 1),
        "answer went 0 1",
    ),
    (
        "slots 0 1\nbb 0\nLD def:10 slot:0 0\nPseudoRET",
        0,
        (0, 1),
        "faulted 2 0 0",
    ),
    (
        "slots 0 1\nbb 0\nADDI def:10 use:32 1\nPseudoRET",
        0,
        (0, 1),
        "faulted 2 0 0",
    ),
    (
        "slots 0 1\nbb 0\nSD use:33 slot:0 0\nPseudoRET",
        0,
        (0, 1),
        "faulted 2 0 0",
    ),
    // what is done by way of the object, which lies from 1,048,560 on, how it ends, and what registers hold then
    (
        "slots 0 1\nobject 5 16 8 0\nbb 0\nADDI def:11 object:5 8\nSD use:10 use:11 0\nLD def:12 object:5 8\n\
         mark 1 reg 12\nmark 2 reg 11\nPseudoRET",
        77,
        (0, 0),
        "went 5 0 5\nmark 1 77\nmark 2 1048568",
    ),
    (
        "slots 0 1\nobject 5 16 8 0\nbb 0\nADDI def:11 object:5 8\nSD use:10 use:11 -16\nPseudoRET",
        77,
        (0, 0),
        "went 1 0 1\nfaulted 2 0 1",
    ),
    (
        "slots 0 1\nobject 5 16 8 0\nbb 0\nADDI def:11 object:5 0\nSD use:10 object:5 0\nLD def:12 use:11 0\n\
         mark 1 reg 12\nPseudoRET",
        77,
        (0, 0),
        "went 4 0 4\nmark 1 77",
    ),
    (
        "slots 0 1\nobject 5 16 8 0\nbb 0\nSD use:10 object:5 8\nADDI def:11 object:5 16\nLD def:12 use:11 -8\n\
         mark 1 reg 12\nLBU def:13 use:11 -17\nPseudoRET",
        77,
        (0, 0),
        "went 4 0 4\nmark 1 77\nfaulted 1 0 4",
    ),
    // an access of eight bytes at x10: with the object the frame has the addresses 1,046,528 to 1,048,559
    (
        "slots 0 1\nobject 5 16 8 0\nbb 0\nLD def:11 use:10 0\nPseudoRET",
        1_046_520,
        (1_046_520, 1),
        "went 1 0 1",
    ),
    (
        "slots 0 1\nobject 5 16 8 0\nbb 0\nLD def:11 use:10 0\nPseudoRET",
        1_046_521,
        (1_046_521, 1),
        "faulted 2 0 0",
    ),
    (
        "slots 0 1\nobject 5 16 8 0\nbb 0\nLD def:11 use:10 0\nPseudoRET",
        1_048_559,
        (1_048_559, 1),
        "faulted 2 0 0",
    ),
    (
        "slots 0 1\nobject 5 16 8 0\nbb 0\nLD def:11 use:10 0\nPseudoRET",
        1_048_560,
        (1_048_560, 1),
        "went 1 0 1",
    ),
    (
        "slots 0 1\nobject 5 16 8 0\nbb 0\nSD use:11 use:10 0\nPseudoRET",
        1_048_559,
        (1_048_559, 1),
        "faulted 2 0 0",
    ),
    (
        "slots 0 1\nobject 5 16 8 0\nbb 0\nPseudoCALL g mask\nPseudoRET",
        1_048_559,
        (1_048_559, 1),
        "answer faulted 0 0",
    ),
    (
        "slots 0 1\nobject 5 16 8 0\nbb 0\nPseudoCALL g mask\nPseudoRET",
        1_048_560,
        (1_048_560, 1),
        "answer went 0 1",
    ),
    // how eight bytes 0x11 are stored over by 0x8182838485868788, how they are read again, and what is read
    (
        "slots 0 1\nbb 0\nLD def:11 use:10 8\nSD use:11 use:10 0\nLD def:12 use:10 0\nmark 1 reg 12\nPseudoRET",
        4096,
        (0, 0),
        "went 4 0 4\nmark 1 9332165983064197000",
    ),
    (
        "slots 0 1\nbb 0\nLD def:11 use:10 8\nSW use:11 use:10 0\nLD def:12 use:10 0\nmark 1 reg 12\nPseudoRET",
        4096,
        (0, 0),
        "went 4 0 4\nmark 1 1229782940201158536",
    ),
    (
        "slots 0 1\nbb 0\nLD def:11 use:10 8\nSH use:11 use:10 0\nLD def:12 use:10 0\nmark 1 reg 12\nPseudoRET",
        4096,
        (0, 0),
        "went 4 0 4\nmark 1 1229782938247333768",
    ),
    (
        "slots 0 1\nbb 0\nLD def:11 use:10 8\nSB use:11 use:10 0\nLD def:12 use:10 0\nmark 1 reg 12\nPseudoRET",
        4096,
        (0, 0),
        "went 4 0 4\nmark 1 1229782938247303560",
    ),
    (
        "slots 0 1\nbb 0\nLD def:11 use:10 8\nSD use:11 use:10 0\nLW def:12 use:10 0\nmark 1 reg 12\nPseudoRET",
        4096,
        (0, 0),
        "went 4 0 4\nmark 1 18446744071654770568",
    ),
    (
        "slots 0 1\nbb 0\nLD def:11 use:10 8\nSD use:11 use:10 0\nLWU def:12 use:10 0\nmark 1 reg 12\nPseudoRET",
        4096,
        (0, 0),
        "went 4 0 4\nmark 1 2240186248",
    ),
    (
        "slots 0 1\nbb 0\nLD def:11 use:10 8\nSD use:11 use:10 0\nLH def:12 use:10 0\nmark 1 reg 12\nPseudoRET",
        4096,
        (0, 0),
        "went 4 0 4\nmark 1 18446744073709520776",
    ),
    (
        "slots 0 1\nbb 0\nLD def:11 use:10 8\nSD use:11 use:10 0\nLHU def:12 use:10 0\nmark 1 reg 12\nPseudoRET",
        4096,
        (0, 0),
        "went 4 0 4\nmark 1 34696",
    ),
    (
        "slots 0 1\nbb 0\nLD def:11 use:10 8\nSD use:11 use:10 0\nLB def:12 use:10 0\nmark 1 reg 12\nPseudoRET",
        4096,
        (0, 0),
        "went 4 0 4\nmark 1 18446744073709551496",
    ),
    (
        "slots 0 1\nbb 0\nLD def:11 use:10 8\nSD use:11 use:10 0\nLBU def:12 use:10 0\nmark 1 reg 12\nPseudoRET",
        4096,
        (0, 0),
        "went 4 0 4\nmark 1 136",
    ),
    // the last two of four bytes at 2^64 - 2 have the addresses 0 and 1
    (
        "slots 0 1\nbb 0\nADDI def:11 use:0 -2\nSW use:11 use:10 0\nLBU def:12 use:0 1\nmark 1 reg 12\n\
         LW def:13 use:10 0\nmark 2 reg 13\nPseudoRET",
        u64::MAX - 1,
        (0, 0),
        "went 6 0 6\nmark 1 255\nmark 2 18446744073709551614",
    ),
    // where x10 is the last address, its byte and those from 0 on are read, written and written by an answer. What
    // isn't written is 0, and the last of two bytes of an address counts
    (
        "slots 0 1\nbb 0\nADDI def:8 use:10 0\nLBU def:12 use:0 16\nmark 1 reg 12\nLBU def:12 use:0 17\n\
         mark 2 reg 12\nLHU def:13 use:8 0\nmark 3 reg 13\nLUI def:11 20576\nADDI def:11 use:11 1800\n\
         SW use:11 use:8 0\nLD def:13 use:8 0\nmark 4 reg 13\nPseudoCALL g mask\nLD def:13 use:8 0\nmark 5 reg 13\n\
         PseudoRET",
        u64::MAX,
        (0, 10),
        "went 12 0 12\nmark 1 3\nmark 2 0\nmark 3 2\nmark 4 84281096\nanswer went 0 13\nwent 2 0 15\nmark 5 84281864",
    ),
];
