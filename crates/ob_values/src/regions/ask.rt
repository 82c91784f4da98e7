//! Tests of what the other calls ask for. None of them takes memory.
ghost use Rattle.std.specs.Prelude.{◌≡◌, is_some};
ghost use Rattle.ob_items.specs.Bodies.{text_of, array_of, properties_of, box_of, closure_of, message_of_error, hooks_of, kept_of};
ghost use Rattle.ob_values.specs.Store.{region_of, item_of, read_item};

use crate::regions::Regions;
use ob_items::{Body, Ref, RegionKey};

impl Regions {
    /// Whether a region is open.
    pub fn is_open(&self, region: RegionKey) -> bool
        ensures { result ≡ is_some (region_of self.now region.0) }
    {
        self.slots.get(region.0).is_some()
    }

    /// Whether a reference points to an item.
    pub fn is_item(&self, r: Ref) -> bool
        ensures { result ≡ is_some (item_of self.now r) }
    {
        self.find(r).is_some()
    }

    /// Whether a reference points to a text.
    pub fn is_text(&self, r: Ref) -> bool
        ensures { result ≡ is_some (read_item text_of self.now r) }
    {
        match self.find(r) {
            Some(body) => matches!(body, Body::Text(_)),
            None => false,
        }
    }

    /// Whether a reference points to an array that is no array of inputs.
    pub fn is_array(&self, r: Ref) -> bool
        ensures { result ≡ is_some (read_item array_of self.now r) }
    {
        match self.find(r) {
            Some(body) => matches!(body, Body::Array(_)),
            None => false,
        }
    }

    /// Whether a reference points to an object.
    pub fn is_object(&self, r: Ref) -> bool
        ensures { result ≡ is_some (read_item properties_of self.now r) }
    {
        match self.find(r) {
            Some(body) => matches!(body, Body::Object(_)),
            None => false,
        }
    }

    /// Whether a reference points to the box of a captured binding.
    pub fn is_box(&self, r: Ref) -> bool
        ensures { result ≡ is_some (read_item box_of self.now r) }
    {
        match self.find(r) {
            Some(body) => matches!(body, Body::Box(_)),
            None => false,
        }
    }

    /// Whether a reference points to a function value.
    pub fn is_closure(&self, r: Ref) -> bool
        ensures { result ≡ is_some (read_item closure_of self.now r) }
    {
        match self.find(r) {
            Some(body) => matches!(body, Body::Closure(_)),
            None => false,
        }
    }

    /// Whether a reference points to a generator object.
    pub fn is_generator(&self, r: Ref) -> bool
        ensures { result ≡ is_some (read_item kept_of self.now r) }
    {
        match self.find(r) {
            Some(body) => matches!(body, Body::Generator(_)),
            None => false,
        }
    }

    /// Whether a reference points to an error.
    pub fn is_error(&self, r: Ref) -> bool
        ensures { result ≡ is_some (read_item message_of_error self.now r) }
    {
        match self.find(r) {
            Some(body) => matches!(body, Body::Error(_, _)),
            None => false,
        }
    }

    /// Whether a reference points to an invalidation object.
    pub fn is_invalidation(&self, r: Ref) -> bool
        ensures { result ≡ is_some (read_item hooks_of self.now r) }
    {
        match self.find(r) {
            Some(body) => matches!(body, Body::Invalidation(_)),
            None => false,
        }
    }
}
