//! Tests of alignments.
use shader_ir::proc::Alignment;
use shader_ir::{CooperativeSize, VectorSize};

#[test]
fn rounds_up(rt: HostRuntime) {
    assert_eq!(rt; Alignment::FOUR.round_up(13), 16);
    assert_eq!(rt; Alignment::SIXTEEN.round_up(4294967280), 4294967280);
    assert!(rt; Alignment::TWO.is_aligned(6) && !Alignment::FOUR.is_aligned(6));
}

#[test]
fn is_made_of_powers_of_two(rt: HostRuntime) {
    assert!(rt; Alignment::new(12).is_none() && Alignment::new(0).is_none());
    assert!(rt; Alignment::new(16) == Some(Alignment::MIN_UNIFORM));
    let width = 8u8;
    assert!(rt; width.is_power_of_two());
    assert!(rt; Alignment::from_width(width) == Alignment::EIGHT);
    assert_eq!(rt; Alignment::EIGHT.get(), 8);
    assert!(rt; Alignment::ONE < Alignment::TWO);
}

#[test]
fn multiplies(rt: HostRuntime) {
    assert_eq!(rt; Alignment::FOUR * 3u32, 12);
    assert!(rt; Alignment::TWO * Alignment::FOUR == Alignment::EIGHT);
}

#[test]
fn is_that_of_a_vector_or_of_rows(rt: HostRuntime) {
    assert!(rt; Alignment::from(VectorSize::Bi) == Alignment::TWO);
    assert!(rt; Alignment::from(VectorSize::Tri) == Alignment::FOUR);
    assert!(rt; Alignment::from(VectorSize::Quad) == Alignment::FOUR);
    assert!(rt; Alignment::from(CooperativeSize::Eight) == Alignment::EIGHT);
    assert!(rt; Alignment::from(CooperativeSize::Sixteen) == Alignment::SIXTEEN);
}
