// Whether a sheet is the best there is of the list that a pair file names: `audit FILE SHEET`. Prints the refusal number, or 0 and the ratio. A file that
// cannot be opened or read, a folder say, or whose name is not UTF-8, has no bytes, and standard error says why. A pair file is decided by its first 65,536
// bytes and a sheet by its first 140,000 (sheetfile, audit_first). What is printed is proved (texts, audit_text), and that the buffers have room for as many.
#![tactic(auto)]

use std::io;
use texts::Input;

fn main(rt: HostRuntime) -> io::Result<()> {
    let mut file = [0u8; 65536];
    let mut sheet = [0u8; 140000];
    let mut out = [0u8; 64];
    let n = texts::read_argument::<65536>(&rt, 1, &mut file);
    let k = texts::read_argument::<140000>(&rt, 2, &mut sheet);
    let r = texts::audit_text(Input::front(&file, n), Input::front(&sheet, k), &mut out);
    rt.write_all(&out[..r])
}
