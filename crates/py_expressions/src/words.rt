// The numbers of keywords and signs, which are their positions in the tables of logical lines.
pub const FALSE: u8 = 0;

pub const NONE: u8 = 1;

pub const TRUE: u8 = 2;

pub const AND: u8 = 3;

pub const AS: u8 = 4;

pub const ASSERT: u8 = 5;

pub const BREAK: u8 = 8;

pub const CLASS: u8 = 9;

pub const CONTINUE: u8 = 10;

pub const DEF: u8 = 11;

pub const DEL: u8 = 12;

pub const ELIF: u8 = 13;

pub const ELSE: u8 = 14;

pub const EXCEPT: u8 = 15;

pub const FOR: u8 = 17;

pub const GLOBAL: u8 = 19;

pub const IF: u8 = 20;

pub const IMPORT: u8 = 21;

pub const IN: u8 = 22;

pub const IS: u8 = 23;

pub const NOT: u8 = 26;

pub const OR: u8 = 27;

pub const PASS: u8 = 28;

pub const RAISE: u8 = 29;

pub const RETURN: u8 = 30;

pub const TRY: u8 = 31;

pub const WHILE: u8 = 32;

pub const WITH: u8 = 33;

pub const OPEN_ROUND: u8 = 0;

pub const CLOSE_ROUND: u8 = 1;

pub const OPEN_SQUARE: u8 = 2;

pub const CLOSE_SQUARE: u8 = 3;

pub const OPEN_CURLY: u8 = 4;

pub const CLOSE_CURLY: u8 = 5;

pub const COMMA: u8 = 6;

pub const COLON: u8 = 7;

pub const DOT: u8 = 8;

pub const ASSIGN: u8 = 9;

pub const PLUS: u8 = 10;

pub const MINUS: u8 = 11;

pub const STAR: u8 = 12;

pub const FLOOR_DIVIDE: u8 = 13;

pub const PERCENT: u8 = 14;

pub const EQUAL: u8 = 15;

pub const UNEQUAL: u8 = 16;

pub const LESS: u8 = 17;

pub const LESS_EQUAL: u8 = 18;

pub const GREATER: u8 = 19;

pub const GREATER_EQUAL: u8 = 20;

pub const PLUS_ASSIGN: u8 = 21;

pub const MINUS_ASSIGN: u8 = 22;

pub const STAR_ASSIGN: u8 = 23;

pub const FLOOR_DIVIDE_ASSIGN: u8 = 24;

pub const PERCENT_ASSIGN: u8 = 25;
