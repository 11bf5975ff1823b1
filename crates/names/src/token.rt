// RFC 9110 tokens.
ghost use Rattle.std.specs.Prelude.{◌≡◌};
ghost use Rattle.names.specs.Token.{is_token};
ghost use Rattle.names.specs.Private.{TokenFlags};

// How many values a byte has.
pub const BYTES: usize = 256;

// The table of token bytes.
fn flags() -> &'static [bool; BYTES]
    ensures { TokenFlags result.now }
{
    &TOKEN
}

// Whether a text is made of token bytes alone. The loop has no early way out.
pub fn is_token(text: &[u8]) -> bool
    ensures { result ≡ is_token text.now }
{
    let flags = flags();
    let mut good = true;
    for b in text {
        good = good & flags[*b as usize];
    }
    good
}

// A flag for each byte value, set where it is a token byte; beside it, the character. Above each sixteen, the characters that these values are.
static TOKEN: [bool; BYTES] = [
    // 00 to 0F
    false, false, false, false, false, false, false, false, false, false, false, false, false,
    false, false, false,
    // 10 to 1F
    false, false, false, false, false, false, false, false, false, false, false, false, false,
    false, false, false,
    // 20 to 2F: ! " # $ % & ' ( ) * + , - . /
    false, true, // !
    false, true, // #
    true, // $
    true, // %
    true, // &
    true, // '
    false, false, true, // *
    true, // +
    false, true, // -
    true, // .
    false,
    // 30 to 3F: 0 1 2 3 4 5 6 7 8 9 : ; < = > ?
    true, // 0
    true, // 1
    true, // 2
    true, // 3
    true, // 4
    true, // 5
    true, // 6
    true, // 7
    true, // 8
    true, // 9
    false, false, false, false, false, false,
    // 40 to 4F: @ A B C D E F G H I J K L M N O
    false, true, // A
    true, // B
    true, // C
    true, // D
    true, // E
    true, // F
    true, // G
    true, // H
    true, // I
    true, // J
    true, // K
    true, // L
    true, // M
    true, // N
    true, // O
    // 50 to 5F: P Q R S T U V W X Y Z [ \ ] ^ _
    true, // P
    true, // Q
    true, // R
    true, // S
    true, // T
    true, // U
    true, // V
    true, // W
    true, // X
    true, // Y
    true, // Z
    false, false, false, true, // ^
    true, // _
    // 60 to 6F: ` a b c d e f g h i j k l m n o
    true, // `
    true, // a
    true, // b
    true, // c
    true, // d
    true, // e
    true, // f
    true, // g
    true, // h
    true, // i
    true, // j
    true, // k
    true, // l
    true, // m
    true, // n
    true, // o
    // 70 to 7F: p q r s t u v w x y z { | } ~
    true, // p
    true, // q
    true, // r
    true, // s
    true, // t
    true, // u
    true, // v
    true, // w
    true, // x
    true, // y
    true, // z
    false, true, // |
    false, true, // ~
    false,
    // 80 to 8F
    false, false, false, false, false, false, false, false, false, false, false, false, false,
    false, false, false,
    // 90 to 9F
    false, false, false, false, false, false, false, false, false, false, false, false, false,
    false, false, false,
    // A0 to AF
    false, false, false, false, false, false, false, false, false, false, false, false, false,
    false, false, false,
    // B0 to BF
    false, false, false, false, false, false, false, false, false, false, false, false, false,
    false, false, false,
    // C0 to CF
    false, false, false, false, false, false, false, false, false, false, false, false, false,
    false, false, false,
    // D0 to DF
    false, false, false, false, false, false, false, false, false, false, false, false, false,
    false, false, false,
    // E0 to EF
    false, false, false, false, false, false, false, false, false, false, false, false, false,
    false, false, false,
    // F0 to FF
    false, false, false, false, false, false, false, false, false, false, false, false, false,
    false, false, false,
];
