// What a case is made of, from the whole numbers of the text.
use doubles_spec::CellDoubles;
use test_support::reader::Reader;

// The double with the bit pattern that stands next. All patterns of a NaN give the one NaN of the language.
fn double(reader: &mut Reader) -> f64 {
    let bits = reader.unsigned();
    if 0x7FF0_0000_0000_0000 < bits % 0x8000_0000_0000_0000 {
        return 0.0 / 0.0;
    }
    f64::from_bits(bits)
}

// The five doubles that stand next.
pub fn cell(reader: &mut Reader) -> CellDoubles {
    CellDoubles {
        target: double(reader),
        low: double(reader),
        high: double(reader),
        safe_low: double(reader),
        safe_high: double(reader),
    }
}

// The mass or scale that stands next.
pub fn word(reader: &mut Reader) -> u32 {
    u32::try_from(reader.unsigned()).unwrap_or(u32::MAX)
}
