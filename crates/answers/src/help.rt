// The list of the commands.
use std::fmt;
use std::fmt::Display;

// The commands of a program, as its list tells them.
#[derive(Clone, Copy)]
pub enum Help {
    // Those that need no method.
    Questions,
    All,
}

const QUESTIONS: &str = "sha256 HEX                   the SHA-256 digest of the bytes
hmac key=HEX HEX             the HMAC-SHA-256 of the bytes under the key
derive ck=HEX ik=HEX autn=HEX snn=TEXT supi=TEXT abba=HEX
                             every key of a log-on, from CK and IK to KAMF
snn TEXT                     whether a text is a serving network name, and of which kind
decode HEX                   what a message of the network says, or why it is refused
";

const METHODS: &str = "card test key=HEX sequence=N starts EAP-AKA' with a test card
card recorded                starts EAP-AKA' with a recorded card that has no rows yet
scripted store=HEX           starts the scripted method with this store and no rows yet
row rand=HEX autn=HEX outcome=out|wrong|stale|good [auts=HEX] [res=HEX ck=HEX ik=HEX]
                             adds a row to the recorded card
row identifier=N outcome=go-on|granted|refuse [at=N]
                             adds a row to the scripted method
process snn=TEXT supi=TEXT suci=TEXT HEX
                             hands a packet to the method: verdict, reply, and whether it holds a block
clear                        clears the method
block                        the key block that the method holds, if any
";

const TERMS: &str = "help                         this list
HEX: two hexadecimal digits to a byte, - for no bytes. TEXT: a word.";

const NUMBER: &str = " N: a decimal number.";

const COMMENT: &str = " # starts a comment.";

// Text after text: `write!` goes through the formatter for each part.
impl Display for Help {
    fn fmt<W: fmt::Write>(&self, f: &mut fmt::Formatter<W>) -> fmt::Result {
        f.write_str(QUESTIONS)?;
        match self {
            Help::Questions => f.write_str(TERMS)?,
            Help::All => {
                f.write_str(METHODS)?;
                f.write_str(TERMS)?;
                f.write_str(NUMBER)?;
            }
        }
        f.write_str(COMMENT)
    }
}
