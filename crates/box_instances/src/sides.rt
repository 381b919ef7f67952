//! Whether the boxes fit the container one by one.
ghost use Rattle.std.specs.Prelude.{◌<◌, ◌↔◌, IsTrue};
ghost use Rattle.packing_terms.specs.Packing.{dims, box_count};
ghost use Rattle.packing_terms.specs.Scales.{SidesFit};
ghost use Rattle.packing_terms.specs.TooLarge.{IsNotLongerBelow};

use crate::Instance;

impl Instance {
    /// Whether no side of a box exceeds the container's in its dimension, so that each box fits by
    /// itself.
    pub fn sides_fit(&self) -> bool
        ensures { IsTrue result ↔ SidesFit self.now }
    {
        for box_no in 0..self.len() {
            if !self.box_fits(box_no) {
                return false;
            }
        }
        true
    }

    // The same of one box.
    fn box_fits(&self, box_no: u32) -> bool
        requires { box_no < box_count self.now }
        ensures { IsTrue result ↔ IsNotLongerBelow self.now (dims self.now) box_no }
    {
        for dim in 0..self.dims() {
            if self.side(box_no, dim) > self.container_side(dim) {
                return false;
            }
        }
        true
    }
}
