// Numbers: sizes and roots, rounding, and the limits of what is admitted.
#![tactic(auto, unfolding(worked::proofs::OnShapes::on_numbers))]

use binary64::{
    abs, ceil_capped, coordinate_in_range, extent_in_range, figure_in_range, from_bits, infinity,
    is_within, larger, minus_infinity, nearest_capped, sqrt,
};
use check::expect;

fn sizes() {
    expect(sqrt(2.0) == 1.4142135623730951);
    let none = sqrt(-1.0);
    expect(none != none);
    expect(abs(-2.5) == 2.5);
    expect(1.0 / abs(-0.0) == 1.0 / 0.0);
    expect(is_within(-1.0, 1.0));
    expect(!is_within(-2.0, 1.0));
    expect(larger(1.0, 2.0) == 2.0);
    expect(1.0 / larger(-0.0, 0.0) == -1.0 / 0.0);
}

fn roundings() {
    expect(ceil_capped(2.5) == 3);
    expect(ceil_capped(-1.5) == 0);
    expect(nearest_capped(2.5) == 3);
    expect(nearest_capped(-2.5) == -3);
}

fn ranges() {
    expect(coordinate_in_range(1048576.0));
    expect(!coordinate_in_range(1048577.0));
    expect(extent_in_range(-2097152.0));
    expect(!extent_in_range(2097153.0));
    expect(figure_in_range(524288.0));
    expect(!figure_in_range(-524289.0));
}

fn patterns() {
    expect(from_bits(0x3ff8_0000_0000_0000) == 1.5);
    let not_a_number = from_bits(0x7ff0_0000_0000_0001);
    expect(not_a_number != not_a_number);
    expect(infinity() > 1.7976931348623157e308);
    expect(infinity() == 1.0 / 0.0);
    expect(minus_infinity() < -1.7976931348623157e308);
    expect(minus_infinity() == -1.0 / 0.0);
}

fn main() {
    patterns();
    sizes();
    roundings();
    ranges();
}
