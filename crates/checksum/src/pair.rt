// Two of the CRC's shift registers over the same bytes.
//
// The register is linear: if two registers differ by x, then after n bytes they differ by x after 8 n steps.
ghost use Rattle.std.specs.Prelude.{◌≡◌, ◌+◌, ◌*◌, ◌%◌, ◌<◌};
ghost use Rattle.checksum.specs.Register.{steps, run};
ghost use Rattle.checksum.specs.Pending.{nibbles, nibble_bits};
ghost use Rattle.checksum.specs.Shift.{shift_steps, first_steps, table_rows};

use crate::register::{NIBBLES, feed};

const ENTRIES: usize = 128;

// How many bytes the table is for.
const SHIFTED: usize = 256;

// Entry 16 j + n is the nibble n after 2020 + 4 j steps.
static TABLE: [u32; ENTRIES] = [
    0, 652652330, 1305304660, 1798041982, 2610609320, 3179025282, 3596083964, 4038151638,
    3963911953, 3399667771, 2710118725, 2272235119, 2011087801, 1362652307, 974364141, 485831367,
    0, 3568879898, 1912640629, 2797100399, 3825281258, 817488368, 2516696223, 1119450501,
    326326165, 3352010383, 1634976736, 3049982714, 4151476095, 600487525, 2238901002, 1372201488,
    0, 3684511609, 1816877235, 3084285898, 3633754470, 51093023, 3034442197, 1866516140,
    1784439949, 2982235124, 102186046, 3716813639, 2999637483, 1767373458, 3733032280, 85762593, 0,
    4256580019, 538805543, 3719021716, 1077611086, 3180153853, 1613139817, 2643513050, 2155222172,
    2109756719, 2691404219, 1574817800, 3226279634, 1039884129, 3763379189, 501668422, 0,
    688018615, 1376037230, 2064055769, 2752074460, 2366309995, 4128111538, 3742347013, 2472780793,
    3126982478, 3244755607, 3898957344, 929755429, 510174610, 1701730379, 1282149628, 0,
    1385518199, 2771036398, 4156554393, 2435078045, 3283157994, 873398131, 1721477892, 4181305723,
    2880240908, 1544749461, 243684834, 1746796262, 982035089, 3442955784, 2678194815, 0,
    1428956283, 2857912566, 4285820045, 2411829165, 3673011158, 630841179, 1890974496, 3304204571,
    2447248736, 1856659949, 998655382, 1261682358, 505387725, 3781948992, 3024605755, 0,
    3459477963, 1192748503, 2300875804, 2385497006, 1075624549, 3375902329, 118185906, 3341717789,
    152953046, 2151249098, 1309279489, 1224825523, 2268212088, 236371812, 3223703215,
];

#[derive(Clone, Copy)]
pub struct Both {
    pub a: u32,
    pub b: u32,
}

// The entry of the lowest nibble of x in a row of the table.
fn look(row: u32, x: u32) -> u32
    requires { row < table_rows }
    ensures { result ≡ steps (first_steps + nibble_bits * row) (x % nibbles) }
{
    TABLE[(NIBBLES * row + x % NIBBLES) as usize]
}

// 2048 steps: how 256 bytes change the difference of two registers.
fn shift(x: u32) -> u32
    ensures { result ≡ steps shift_steps x }
{
    look(7, x)
        ^ (look(6, x >> 4)
            ^ (look(5, x >> 8)
                ^ (look(4, x >> 12)
                    ^ (look(3, x >> 16)
                        ^ (look(2, x >> 20) ^ (look(1, x >> 24) ^ look(0, x >> 28)))))))
}

// Both registers after some bytes. If there are 256 bytes, or if the registers are equal, the bytes are read once.
pub fn feed_both(a: u32, b: u32, bytes: &[u8]) -> Both
    ensures { (result.a ≡ run a bytes.now) × (result.b ≡ run b bytes.now) }
{
    let x = feed(a, bytes);
    if a == b {
        return Both { a: x, b: x };
    }
    if bytes.len() == SHIFTED {
        let y = x ^ shift(a ^ b);
        return Both { a: x, b: y };
    }
    let y = feed(b, bytes);
    Both { a: x, b: y }
}
