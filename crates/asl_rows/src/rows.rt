//! The command lines, and what each must give.

/// A command line over two files in memory, and what it must give.
pub struct Row {
    pub words: &'static str,
    /// What `a.asl` holds.
    pub program: &'static [u8],
    /// What `w` holds.
    pub list: &'static [u8],
    /// How many bytes the sink takes.
    pub room: usize,
    /// The calls on the sink that fail, counted from 1.
    pub fails: &'static [u64],
    pub text: &'static [u8],
    pub status: u8,
}

const RETURNS: &[u8] = b"func main() => integer begin return 0; end;\n";

const ROWS: &[Row] = &[
    Row {
        words: "asl run a.asl",
        program: RETURNS,
        list: b"",
        room: 12,
        fails: &[],
        text: b"returned 0\n",
        status: 0,
    },
    Row {
        words: "asl run a.asl",
        program: RETURNS,
        list: b"",
        room: 5,
        fails: &[],
        text: b"retur",
        status: 6,
    },
    Row {
        words: "asl exec --words w a.asl",
        program: b"var n: integer; func decode(word: bits(32)) begin n = n + 1; end;\n",
        list: b"00000000\n00000000\n",
        room: 20,
        fails: &[],
        text: b"word 00000000\nword 0",
        status: 6,
    },
    // Each call takes one byte, so that the sixth is for the sixth byte.
    Row {
        words: "asl run a.asl",
        program: RETURNS,
        list: b"",
        room: 64,
        fails: &[6],
        text: b"retur",
        status: 6,
    },
    // A failed write inside the printed text of a run.
    Row {
        words: "asl run a.asl",
        program: b"func main() => integer begin println((-7) DIVRM 2); println((-7) MOD 2); return 7 DIV 2; end;\n",
        list: b"",
        room: 64,
        fails: &[2],
        text: b"-",
        status: 6,
    },
    // A usage line that can't be written is a failed write too.
    Row {
        words: "asl",
        program: b"",
        list: b"",
        room: 256,
        fails: &[1],
        text: b"",
        status: 6,
    },
];

/// Two words of an instruction set, of which the second is unknown.
const TWO_WORDS: &Row = &Row {
    words: "asl exec --words w a.asl",
    program: b"type Bad of exception {code: integer};
var n: integer = 0;
func decode(word: bits(32)) begin
  case word of
    when 'xxxx xxxx xxxx xxxx xxxx xxxx xxxx 1010' => n = n + 1;
    otherwise => throw Bad{code = UInt(word)};
  end;
end;
",
    list: b"0000000a\n0000000b\n",
    room: 256,
    fails: &[],
    text: b"word 0000000a\nword 0000000b\nuncaught Bad{code=11}\nn = 1\n",
    status: 3,
};

/// Command lines over devices that move one byte at a time.
pub fn rows() -> &'static [Row] {
    ROWS
}

/// A run that reads two files and writes lines of all kinds.
pub fn two_words() -> &'static Row {
    TWO_WORDS
}
