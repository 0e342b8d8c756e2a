// The lists of a mesh with so many nodes, elements and node places; every entry is 9.
// A macro, since the check does not find what lists hold that a function makes, lends in a struct to a call and gives back.
#[macro_export]
macro_rules! nines {
    ($nodes:expr, $elements:expr, $places:expr) => {
        openrdson_core::MeshLists {
            xs: &mut [9.0; $nodes],
            ys: &mut [9.0; $nodes],
            zs: &mut [9.0; $nodes],
            kinds: &mut [9; $elements],
            places: &mut [9; $places],
            regions: &mut [9; $elements],
        }
    };
}
