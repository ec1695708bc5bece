//! Functions, and the results of parts of passes on them.

use crate::parts::Part;

/// What is run on a function, and what comes of it.
pub struct Row {
    /// What the row shows.
    pub shows: &'static str,
    pub part: Part,
    pub text: &'static str,
    pub wanted: &'static str,
}

pub const ROWS: &[Row] = &[
    Row {
        shows: "both definitions of x12: marks don't keep them",
        part: Part::Lives,
        text: "---\nname: f\nbody: |\n  bb.0:\n    $x12 = ADDI $x0, 0\n  bb.1:\n    \
               $x11 = ADD $x11, $x10, debug-instr-number 1\n    \
               DBG_INSTR_REF !4, !DIExpression(DW_OP_LLVM_arg, 0), dbg-instr-ref(2, 0)\n    \
               $x12 = COPY $x11, debug-instr-number 2\n    BNE $x11, $x13, %bb.1\n  bb.2:\n    \
               DBG_INSTR_REF !4, !DIExpression(DW_OP_LLVM_arg, 0), dbg-instr-ref(2, 0)\n    \
               PseudoRET implicit $x11\n...\n",
        wanted: " 10 11 13; 10 11 13; 10 11 13\n 10 11 13; 10 11 13; 10 11 13\n 11;; 11\n-\n++-+\n++\n",
    },
    Row {
        shows: "a phi is no use",
        part: Part::Lives,
        text: "---\nname: f\nbody: |\n  bb.0:\n    DBG_VALUE $x11, $noreg, !4, !DIExpression()\n    \
               $x12 = COPY $x10, debug-instr-number 1\n    DBG_PHI $x12, 2\n    \
               DBG_INSTR_REF !4, !DIExpression(DW_OP_LLVM_arg, 0), dbg-instr-ref(2, 0)\n    $x10 = ADDI $x0, 0\n    \
               PseudoRET implicit $x10\n...\n",
        wanted: " 10;; 10\n+-++++\n",
    },
    Row {
        shows: "a chain within a block goes at once, one over blocks doesn't; and in a loop of its own it stays",
        part: Part::Lives,
        text: "---\nname: f\nbody: |\n  bb.0:\n    $x12 = ADDI $x10, 1\n    $x13 = ADDI $x12, 1\n    \
               $x14 = ADDI $x13, 1\n    $x11 = ADDI $x10, 2\n  bb.1:\n    $x15 = ADDI $x11, 1\n    \
               $x16 = ADDI $x16, 1\n    BNE $x10, $x0, %bb.1\n  bb.2:\n    PseudoRET\n...\n",
        wanted: " 0 10 16; 0 10 11 16; 0 10 16\n 0 10 11 16; 0 10 11 16; 0 10 11 16\n;;\n---+\n-++\n+\n",
    },
    Row {
        shows: "code that defines x0, with its uses",
        part: Part::Lives,
        text: "---\nname: f\nbody: |\n  bb.0:\n    $x11 = ADDI $x10, 1\n    $x0 = ADD $x11, $x11\n    \
               $x0 = COPY $x10\n    PseudoRET\n...\n",
        wanted: " 10;; 10\n---+\n",
    },
    Row {
        shows: "a slot store that no load reads, and a load that may trap",
        part: Part::Lives,
        text: "---\nname: f\nstack:\n  - { id: 0, size: 8, alignment: 8 }\nbody: |\n  bb.0:\n    \
               SD $x10, %stack.0, 0\n    $x11 = LD %stack.0, 0\n    SD $x11, %stack.0, 0\n    PseudoRET\n...\n",
        wanted: " 10;; 10\n---+\n",
    },
    Row {
        shows: "a store that is read on one way alone; memory is never dead",
        part: Part::Lives,
        text: "---\nname: f\nstack:\n  - { id: 0, size: 8, alignment: 8 }\nbody: |\n  bb.0:\n    \
               SD $x10, %stack.0, 0\n    SD $x11, $x10, 0\n    BEQ $x10, $x0, %bb.2\n  bb.1:\n    \
               $x10 = LD %stack.0, 0\n  bb.2:\n    PseudoRET implicit $x10\n...\n",
        wanted: " 0 10 11; 10 s; 0 10 11\n s; 10; s\n 10;; 10\n+++\n+\n+\n",
    },
    Row {
        shows: "an unreachable block counts; a call sets its registers",
        part: Part::Lives,
        text: "---\nname: f\nbody: |\n  bb.0:\n    $x11 = ADDI $x10, 1\n    $x5 = ADDI $x10, 2\n    \
               PseudoCALL @g, csr_ilp32_lp64, implicit-def dead $x1, implicit-def $x10\n    PseudoBR %bb.2\n  \
               bb.1:\n    $x12 = ADDI $x8, 1\n    $x13 = ADDI $x12, 1\n    BEQ $x13, $x0, %bb.0\n  bb.2:\n    \
               PseudoRET implicit $x10\n...\n",
        wanted: " 10; 10; 10\n 0 8 10; 10; 0 8 10\n 10;; 10\n--++\n+++\n+\n",
    },
    Row {
        shows: "a branch over a block: both ways count, a phi is no use, and a slot that is saved is not read",
        part: Part::Lives,
        text: "---\nname: f\nstack:\n  - { id: 0, size: 8, alignment: 8 }\nbody: |\n  bb.0:\n    \
               $x10 = ADDI $x0, 1\n    BEQ $x5, $x6, %bb.2\n  bb.7:\n    SD $x10, %stack.0, 0\n    \
               DBG_PHI $x20, 1\n    PseudoBR %bb.3\n  bb.2:\n    $x11 = ADD $x12, $x13\n  bb.3:\n    \
               PseudoRET implicit $x11\n...\n",
        wanted: " 5 6 11 12 13; 10 11 12 13; 5 6 11 12 13\n 10 11; 11; 10 11\n 12 13; 11; 12 13\n 11;; 11\n++\n\
                 -++\n+\n+\n",
    },
    Row {
        shows: "a loop with a call, and a slot that is saved after it is loaded",
        part: Part::Lives,
        text: "---\nname: f\nstack:\n  - { id: 0, size: 8, alignment: 8 }\nbody: |\n  bb.0:\n    \
               $x8 = ADDI $x0, 1\n  bb.1:\n    \
               PseudoCALL @g, csr_ilp32_lp64, implicit-def dead $x1, implicit $x10, implicit-def $x10\n    \
               $x7 = LD %stack.0, 0\n    $x9 = ADD $x8, $x7\n    SD $x9, %stack.0, 0\n    BEQ $x9, $x18, %bb.1\n  \
               bb.2:\n    PseudoRET implicit $x10\n...\n",
        wanted: " 10 18 s; 8 10 18 s; 10 18 s\n 8 10 18 s; 8 10 18 s; 8 10 18 s\n 10;; 10\n+\n+++++\n+\n",
    },
    Row {
        shows: "a block that no path reaches counts",
        part: Part::Lives,
        text: "---\nname: f\nbody: |\n  bb.0:\n    $x11 = ADDI $x10, 1\n    PseudoBR %bb.2\n  bb.1:\n    \
               $x12 = ADDI $x8, 1\n    BEQ $x12, $x9, %bb.0\n  bb.2:\n    PseudoRET implicit $x11\n...\n",
        wanted: " 10; 11; 10\n 8 9 10 11; 10 11; 8 9 10 11\n 11;; 11\n++\n++\n+\n",
    },
    Row {
        shows: "a chain of two jump-only blocks, the second one empty",
        part: Part::Folded,
        text: "---\nname: f\nbody: |\n  bb.0:\n    BEQ $x10, $x0, %bb.1\n    PseudoBR %bb.4\n  bb.1:\n    \
               PseudoBR %bb.3\n  bb.2:\n    $x10 = ADDI $x10, 1\n    PseudoRET implicit $x10\n  bb.3:\n  bb.4:\n    \
               PseudoRET implicit $x10\n...\n",
        wanted: "bb.0:\nbb.4:\n=4.0 PseudoRET implicit $x10\n",
    },
    Row {
        shows: "a circle: a way comes to one of its blocks",
        part: Part::Folded,
        text: "---\nname: f\nbody: |\n  bb.0:\n    BNE $x10, $x0, %bb.2\n  bb.1:\n    PseudoBR %bb.2\n  bb.2:\n    \
               PseudoBR %bb.3\n  bb.3:\n    PseudoBR %bb.2\n...\n",
        wanted: "bb.0:\nbb.2:\nbb.3:\n=3.0 PseudoBR %bb.2\n",
    },
    Row {
        shows: "a way that ends inside a circle elsewhere",
        part: Part::Folded,
        text: "---\nname: f\nbody: |\n  bb.0:\n    BNE $x10, $x0, %bb.4\n  bb.1:\n    $x10 = ADDI $x10, 1\n    \
               BLTU $x10, $x11, %bb.3\n  bb.2:\n    PseudoRET implicit $x10\n  bb.3:\n    PseudoBR %bb.2\n  \
               bb.4:\n    PseudoBR %bb.6\n  bb.5:\n    PseudoBR %bb.6\n  bb.6:\n    PseudoBR %bb.5\n...\n",
        wanted: "bb.0:\n=0.0 BNE $x10, $x0, %bb.6\nbb.1:\n=1.0 $x10 = ADDI $x10, 1\nbb.2:\n\
                 =2.0 PseudoRET implicit $x10\nbb.5:\nbb.6:\n=6.0 PseudoBR %bb.5\n",
    },
    Row {
        shows: "a conditional branch whose ways are the same; the jump of the text takes its place",
        part: Part::Folded,
        text: "---\nname: f\nbody: |\n  bb.0:\n    $x10 = ADDI $x10, 1\n    BGE $x10, $x11, %bb.2\n    \
               PseudoBR %bb.3\n  bb.1:\n    PseudoRET implicit $x10\n  bb.2:\n    PseudoBR %bb.3\n  bb.3:\n    \
               PseudoBR %bb.1\n...\n",
        wanted: "bb.0:\n=0.0 $x10 = ADDI $x10, 1\nbb.1:\n=1.0 PseudoRET implicit $x10\n",
    },
    Row {
        shows: "the same, where the end comes next",
        part: Part::Folded,
        text: "---\nname: f\nbody: |\n  bb.0:\n    BLT $x10, $x11, %bb.2\n  bb.1:\n  bb.2:\n    \
               PseudoRET implicit $x10\n...\n",
        wanted: "bb.0:\nbb.2:\n=2.0 PseudoRET implicit $x10\n",
    },
    Row {
        shows: "a branch that is turned round",
        part: Part::Folded,
        text: "---\nname: f\nbody: |\n  bb.0:\n    BLT $x10, $x11, %bb.1\n    PseudoBR %bb.2\n  bb.1:\n    \
               $x10 = ADDI $x10, 1\n    PseudoRET implicit $x10\n  bb.2:\n    PseudoRET implicit $x11\n...\n",
        wanted: "bb.0:\n=0.0 BGE $x10, $x11, %bb.2\nbb.1:\n=1.0 $x10 = ADDI $x10, 1\n\
                 =1.1 PseudoRET implicit $x10\nbb.2:\n=2.0 PseudoRET implicit $x11\n",
    },
    Row {
        shows: "a fall that needs a jump, and a block that isn't reached",
        part: Part::Folded,
        text: "---\nname: f\nbody: |\n  bb.0:\n    $x10 = ADDI $x10, 1\n  bb.1:\n    PseudoBR %bb.3\n  bb.2:\n    \
               $x10 = ADDI $x10, 2\n    PseudoRET implicit $x10\n  bb.3:\n    BGEU $x10, $x11, %bb.5\n  bb.4:\n    \
               PseudoBR %bb.0\n  bb.5:\n    PseudoRET implicit $x10\n...\n",
        wanted: "bb.0:\n=0.0 $x10 = ADDI $x10, 1\nbb.3:\n=3.0 BLTU $x10, $x11, %bb.0\nbb.5:\n\
                 =5.0 PseudoRET implicit $x10\n",
    },
    Row {
        shows: "jumps of the text and made ones, with the origins that they get",
        part: Part::Folded,
        text: "---\nname: f\nbody: |\n  bb.0:\n    $x10 = ADDI $x10, 1\n    BGE $x10, $x11, %bb.3\n    \
               PseudoBR %bb.3\n  bb.1:\n    $x10 = ADDI $x10, 2\n    BEQ $x10, $x11, %bb.4\n  bb.2:\n    \
               PseudoBR %bb.4\n  bb.3:\n    $x10 = ADDI $x10, 3\n    BLT $x10, $x11, %bb.1\n  bb.4:\n    \
               PseudoBR %bb.7\n  bb.5:\n    $x10 = ADDI $x10, 5\n    BLTU $x10, $x11, %bb.3\n    \
               PseudoBR %bb.1\n  bb.6:\n    PseudoRET implicit $x10\n  bb.7:\n    BNE $x10, $x11, %bb.5\n    \
               PseudoBR %bb.6\n...\n",
        wanted: "bb.0:\n=0.0 $x10 = ADDI $x10, 1\n=0.1 PseudoBR %bb.3\nbb.1:\n=1.0 $x10 = ADDI $x10, 2\n\
                 =1.1 PseudoBR %bb.7\nbb.3:\n=3.0 $x10 = ADDI $x10, 3\n=3.1 BLT $x10, $x11, %bb.1\n\
                 <3.2 PseudoBR %bb.7\nbb.5:\n=5.0 $x10 = ADDI $x10, 5\n=5.1 BLTU $x10, $x11, %bb.3\n\
                 =5.2 PseudoBR %bb.1\nbb.6:\n=6.0 PseudoRET implicit $x10\nbb.7:\n=7.0 BNE $x10, $x11, %bb.5\n\
                 =7.1 PseudoBR %bb.6\n",
    },
    Row {
        shows: "the first block isn't jump-only, though it only jumps",
        part: Part::Folded,
        text: "---\nname: f\nbody: |\n  bb.0:\n    PseudoBR %bb.1\n  bb.1:\n    PseudoBR %bb.0\n...\n",
        wanted: "bb.0:\n=0.0 PseudoBR %bb.0\n",
    },
    Row {
        shows: "the code that sets the source stands for it, by a fresh number",
        part: Part::TakenOut(1, &[]),
        text: "---\nname: f\nbody: |\n  bb.0:\n    $x11 = ADDI $x10, 1\n    \
               $x12 = COPY $x11, debug-instr-number 1\n    PseudoRET implicit $x12\n...\n",
        wanted: "=0.0 $x11 = ADDI $x10, 1, debug-instr-number 100\n=0.2 PseudoRET implicit $x12\n1 is 100 0\n\
                 fresh 101\n",
    },
    Row {
        shows: "by the number that it has; the last one that sets it",
        part: Part::TakenOut(3, &[]),
        text: "---\nname: f\nbody: |\n  bb.0:\n    $x11 = ADDI $x10, 1\n    \
               $x11 = ADDI $x11, 2, debug-instr-number 5\n    $x10 = ADDI $x10, 3\n    \
               $x12 = COPY $x11, debug-instr-number 1\n    PseudoRET implicit $x12\n...\n",
        wanted: "=0.0 $x11 = ADDI $x10, 1\n=0.1 $x11 = ADDI $x11, 2, debug-instr-number 5\n\
                 =0.2 $x10 = ADDI $x10, 3\n=0.4 PseudoRET implicit $x12\n1 is 5 0\nfresh 100\n",
    },
    Row {
        shows: "a call sets it by its operand 3",
        part: Part::TakenOut(1, &[]),
        text: "---\nname: f\nbody: |\n  bb.0:\n    \
               PseudoCALL @g, csr_ilp32_lp64, implicit-def dead $x1, implicit-def $x11\n    \
               $x12 = COPY $x11, debug-instr-number 1\n    PseudoRET implicit $x12\n...\n",
        wanted: "=0.0 PseudoCALL @g, mask, implicit-def $x1, implicit-def $x11, debug-instr-number 100\n\
                 =0.2 PseudoRET implicit $x12\n1 is 100 3\nfresh 101\n",
    },
    Row {
        shows: "what sets it goes too: a phi takes the copy's place",
        part: Part::TakenOut(1, &[true]),
        text: "---\nname: f\nbody: |\n  bb.0:\n    $x11 = ADDI $x10, 1\n    \
               $x12 = COPY $x11, debug-instr-number 1\n    PseudoRET implicit $x12\n...\n",
        wanted: "=0.0 $x11 = ADDI $x10, 1\n<0.1 DBG_PHI $x11, 1\n=0.2 PseudoRET implicit $x12\nfresh 100\n",
    },
    Row {
        shows: "nothing above sets it",
        part: Part::TakenOut(0, &[]),
        text: "---\nname: f\nbody: |\n  bb.0:\n    $x12 = COPY $x11, debug-instr-number 1\n    \
               PseudoRET implicit $x12\n...\n",
        wanted: "<0.0 DBG_PHI $x11, 1\n=0.1 PseudoRET implicit $x12\nfresh 100\n",
    },
    Row {
        shows: "a mark between the two asks for the number, and is to find nothing yet",
        part: Part::TakenOut(2, &[]),
        text: "---\nname: f\nbody: |\n  bb.0:\n    $x11 = ADDI $x10, 1\n    \
               DBG_INSTR_REF !7, !DIExpression(DW_OP_LLVM_arg, 0), dbg-instr-ref(1, 0)\n    \
               $x12 = COPY $x11, debug-instr-number 1\n    PseudoRET implicit $x12\n...\n",
        wanted: "=0.0 $x11 = ADDI $x10, 1\n\
                 =0.1 DBG_INSTR_REF !7, !DIExpression(DW_OP_LLVM_arg, 0), dbg-instr-ref(1, 0)\n\
                 <0.2 DBG_PHI $x11, 1\n=0.3 PseudoRET implicit $x12\nfresh 100\n",
    },
    Row {
        shows: "a substitution is enough",
        part: Part::TakenOut(1, &[]),
        text: "---\nname: f\ndebugValueSubstitutions:\n  \
               - { srcinst: 1, srcop: 0, dstinst: 9, dstop: 0, subreg: 0 }\nbody: |\n  bb.0:\n    \
               $x11 = ADDI $x10, 1\n    $x12 = COPY $x11, debug-instr-number 1\n    PseudoRET implicit $x12\n\
               ...\n",
        wanted: "=0.0 $x11 = ADDI $x10, 1\n=0.2 PseudoRET implicit $x12\n1 is 9 0\nfresh 100\n",
    },
    Row {
        shows: "registers that may not be in a reserve, and one twice",
        part: Part::Spilled(&[&[10, 18, 1, 18, 5]]),
        text: "---\nname: f\nbody: |\n  bb.0:\n    $x18 = ADDI $x10, 1\n    $x10 = ADD $x18, $x11\n    \
               PseudoRET implicit $x10\n...\n",
        wanted: "bb.0:\n=0.0 $x5 = ADDI $x10, 1\n<0.1 SD $x5, %stack.0, 0\n<0.1 $x5 = LD %stack.0, 0\n\
                 =0.1 $x10 = ADD $x5, $x11\n=0.2 PseudoRET implicit $x10\nslots 1\n",
    },
    Row {
        shows: "added code names x18, which is not spilled again",
        part: Part::Spilled(&[&[18], &[18, 19]]),
        text: "---\nname: f\nbody: |\n  bb.0:\n    $x19 = ADDI $x18, 1\n    PseudoRET implicit $x10\n...\n",
        wanted: "kept register x18 call-named\nbb.0:\n<0.0 SD $x18, %stack.0, 0\n<0.0 $x5 = LD %stack.0, 0\n\
                 =0.0 $x6 = ADDI $x5, 1\n<0.1 SD $x6, %stack.1, 0\n=0.1 PseudoRET implicit $x10\nslots 2\n",
    },
    Row {
        shows: "a register that is read last where another one is set isn't shared",
        part: Part::Scanned(&[]),
        text: "---\nname: f\nbody: |\n  bb.0:\n    %0:gpr = COPY $x10\n    \
               %1:gpr = ADDI %0, 3, debug-instr-number 1\n    \
               DBG_INSTR_REF !4, !DIExpression(DW_OP_LLVM_arg, 0), dbg-instr-ref(1, 0)\n    $x10 = COPY %1\n    \
               PseudoRET implicit $x10\n...\n",
        wanted: "bb.0:\n=0.0 $x7 = COPY $x10\n=0.1 $x28 = ADDI $x7, 3, debug-instr-number 1\n\
                 =0.2 DBG_INSTR_REF !4, !DIExpression(DW_OP_LLVM_arg, 0), dbg-instr-ref(1, 0)\n\
                 =0.3 $x10 = COPY $x28\n=0.4 PseudoRET implicit $x10\nslots 0\n",
    },
    Row {
        shows: "a register that is live over a call gets one that calls keep",
        part: Part::Scanned(&[]),
        text: "---\nname: f\nbody: |\n  bb.0:\n    %0 = COPY $x10\n    \
               PseudoCALL @g, csr_ilp32_lp64, implicit-def dead $x1, implicit-def $x10\n    \
               $x10 = ADD $x10, %0\n    PseudoRET implicit $x10\n...\n",
        wanted: "bb.0:\n=0.0 $x9 = COPY $x10\n\
                 =0.1 PseudoCALL @g, mask, implicit-def $x1, implicit-def $x10\n=0.2 $x10 = ADD $x10, $x9\n\
                 =0.3 PseudoRET implicit $x10\nslots 0\n",
    },
    Row {
        shows: "fewer than two scratch registers: the function stays as it is",
        part: Part::Scanned(&[]),
        text: "---\nname: f\nbody: |\n  bb.0:\n    %0 = ADD $x5, $x6\n    $x7 = ADD $x28, $x29\n    \
               $x10 = ADD %0, $x30\n    PseudoRET implicit $x10\n...\n",
        wanted: "bb.0:\n=0.0 %0 = ADD $x5, $x6\n=0.1 $x7 = ADD $x28, $x29\n=0.2 $x10 = ADD %0, $x30\n\
                 =0.3 PseudoRET implicit $x10\nslots 0\n",
    },
    Row {
        shows: "debug values of a physical register that was given, and of a virtual one before it is set",
        part: Part::Scanned(&[]),
        text: "---\nname: f\nbody: |\n  bb.0:\n    DBG_VALUE %0, $noreg, !4, !DIExpression()\n    \
               DBG_VALUE $x7, $noreg, !5, !DIExpression()\n    %0 = COPY $x10\n    \
               DBG_VALUE $x7, $noreg, !5, !DIExpression()\n    DBG_VALUE %0, $noreg, !4, !DIExpression()\n    \
               $x10 = COPY %0\n    PseudoRET implicit $x10\n...\n",
        wanted: "a debug item\na debug item\nbb.0:\n=0.0 DBG_VALUE $noreg, $noreg, !4, !DIExpression()\n\
                 =0.1 DBG_VALUE $x7, $noreg, !5, !DIExpression()\n=0.2 $x7 = COPY $x10\n\
                 =0.3 DBG_VALUE $noreg, $noreg, !5, !DIExpression()\n\
                 =0.4 DBG_VALUE $x7, $noreg, !4, !DIExpression()\n=0.5 $x10 = COPY $x7\n\
                 =0.6 PseudoRET implicit $x10\nslots 0\n",
    },
    Row {
        shows: "no register is left",
        part: Part::Scanned(&[
            7, 8, 9, 10, 11, 12, 13, 14, 15, 16, 17, 18, 19, 20, 21, 22, 23, 24, 25, 26, 27, 28,
            29, 30, 31,
        ]),
        text: "---\nname: f\nbody: |\n  bb.0:\n    %0 = COPY $x10\n    $x10 = ADDI %0, 1\n    \
               PseudoRET implicit $x10\n...\n",
        wanted: "bb.0:\n=0.0 $x5 = COPY $x10\n<0.1 SD $x5, %stack.0, 0\n<0.1 $x5 = LD %stack.0, 0\n\
                 =0.1 $x10 = ADDI $x5, 1\n=0.2 PseudoRET implicit $x10\nslots 1\n",
    },
];
