use mcf_base::MemSink;
use std::test::Fail;
use text_lines::{Buffer, Word};

#[test]
fn lines_through_the_buffer(rt: HostRuntime) -> Result<(), Fail> {
    let mut out = MemSink::new(rt.alloc(), 6000, 700, Vec::new(rt.alloc()))?;
    let mut buffer = Buffer::new();
    let fraction = Word::fraction(45035996273704960, 18014398509481984);
    let decimal = Word::decimal(2, 500000);
    let words = [fraction.bytes(), decimal.bytes()];
    assert!(rt; buffer.put_line(&mut out, b"upper", &words).is_ok());
    assert!(rt; buffer.put_word(&mut out, &[120; 5000]).is_ok());
    assert!(rt;
        buffer
            .put(&mut out, Word::number(u128::MAX).bytes())
            .is_ok()
    );
    assert!(rt; buffer.flush(&mut out).is_ok());
    let line = b"upper 45035996273704960/18014398509481984 2.500000\n ";
    let (first, rest) = out.written().split_at(line.len().min(out.written().len()));
    assert_eq!(rt; first, line.as_slice());
    let (middle, last) = rest.split_at(5000.min(rest.len()));
    assert!(rt; middle.len() == 5000 && middle.iter().all(|b| *b == 120));
    assert_eq!(rt; last, b"340282366920938463463374607431768211455".as_slice());
    Ok(())
}
