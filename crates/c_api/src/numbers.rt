// The calls of binary64.
ghost use Rattle.std.specs.Prelude.{◌≡◌};
ghost use Rattle.binary64.specs.Numbers as numbers;
ghost use Rattle.binary64.specs.Root.{sqrt_of};
ghost use Rattle.binary64.specs.Rounding.{ceil_capped, nearest_capped};

#[unsafe(no_mangle)]
pub extern "C" fn openrdson_sqrt(x: f64) -> f64
    ensures { result ≡ sqrt_of x }
{
    binary64::sqrt(x)
}

#[unsafe(no_mangle)]
pub extern "C" fn openrdson_abs(x: f64) -> f64
    ensures { result ≡ numbers.abs x }
{
    binary64::abs(x)
}

#[unsafe(no_mangle)]
pub extern "C" fn openrdson_ceil_capped(x: f64) -> u64
    ensures { result ≡ ceil_capped x }
{
    binary64::ceil_capped(x)
}

#[unsafe(no_mangle)]
pub extern "C" fn openrdson_nearest_capped(x: f64) -> i64
    ensures { result ≡ nearest_capped x }
{
    binary64::nearest_capped(x)
}

#[unsafe(no_mangle)]
pub extern "C" fn openrdson_coordinate_in_range(x: f64) -> bool
    ensures { result ≡ numbers.at_most 20 x }
{
    binary64::coordinate_in_range(x)
}

#[unsafe(no_mangle)]
pub extern "C" fn openrdson_extent_in_range(x: f64) -> bool
    ensures { result ≡ numbers.at_most 21 x }
{
    binary64::extent_in_range(x)
}

#[unsafe(no_mangle)]
pub extern "C" fn openrdson_figure_in_range(x: f64) -> bool
    ensures { result ≡ numbers.at_most 19 x }
{
    binary64::figure_in_range(x)
}
