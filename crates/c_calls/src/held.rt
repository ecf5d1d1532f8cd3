//! A document in a struct that C keeps: a pointer to its block on the heap, or none.

ghost use Rattle.std.specs.Prelude.{◌≡◌, ◌↔◌, Option, Some, None, IsSome, IsTrue, MatchOption};
ghost use Rattle.kdl.specs.declared.document.KdlDocument.{KdlDocument};
ghost use Rattle.c_calls.specs.Held.{document_coded, held_owns};

mod parts;

use self::parts::Parts;
use kdl::KdlDocument;
use std::alloc::Global;
use std::marker::Model;

/// The pointer of a boxed document, or null. The pointer is untyped, so that C sees nothing of the document.
#[repr(C)]
#[derive(Drop)]
pub struct Held {
    ptr: *mut u8,
    alloc: Global,
    pub ghost document: { Option KdlDocument } by { document_coded },
}

impl Model for Held {
    ghost also_owns = { λ h. held_owns h.alloc h.ptr h.document };
}

impl Held {
    /// Returns a `Held` without a document.
    fn none(alloc: Global) -> Held
        ensures { result.document ≡ None }
    {
        Held {
            ptr: std::ptr::null_mut(),
            alloc,
        }
    }

    /// Returns a `Held` with the document of a box that was taken apart.
    fn of_parts(parts: Parts<KdlDocument, Global>) -> Held
        ensures { result.document ≡ Some parts.value }
    {
        let Parts { ptr, alloc } = parts;
        Held {
            ptr: ptr as *mut u8,
            alloc,
        }
    }

    /// Returns the parts of the document's box. There has to be a document.
    fn into_parts(self) -> Parts<KdlDocument, Global>
        requires { IsSome self.document }
        ensures { self.document ≡ Some result.value }
    {
        let Held { ptr, alloc } = self;
        Parts {
            ptr: ptr as *mut KdlDocument,
            alloc,
        }
    }
}

/// What C keeps: a document, or none. A handle whose bytes are all zero has no document.
#[repr(C)]
pub struct Handle {
    live: bool,
    pub held: Held,
    ghost agrees: { IsTrue live ↔ IsSome held.document },
}

impl Handle {
    /// Returns a handle without a document.
    pub fn none(alloc: Global) -> Handle
        ensures { result.held.document ≡ None }
    {
        Handle {
            live: false,
            held: Held::none(alloc),
        }
    }

    /// Returns a handle with the document.
    pub fn of(document: Box<KdlDocument>) -> Handle
        ensures { result.held.document ≡ Some document.value }
    {
        Handle {
            live: true,
            held: Held::of_parts(Parts::of(document)),
        }
    }

    /// Returns the document, or `None` if there is none.
    pub fn into_box(self) -> Option<Box<KdlDocument>>
        ensures { MatchOption result (self.held.document ≡ None)
            (λ boxed. self.held.document ≡ Some boxed.value) }
    {
        let Handle { live, held } = self;
        if live {
            Some(held.into_parts().into_box())
        } else {
            None
        }
    }

    /// Takes the document out of the handle, and leaves none in its place. Returns `None` if there is no document.
    pub fn take(&mut self, alloc: Global) -> Option<Box<KdlDocument>>
        ensures taken { MatchOption result (self.old.held.document ≡ None)
            (λ boxed. self.old.held.document ≡ Some boxed.value) }
        ensures left { self.new.held.document ≡ None }
    {
        std::mem::replace(self, Handle::none(alloc)).into_box()
    }

    /// Puts a document into the handle, and frees the one that was there.
    pub fn put(&mut self, document: Box<KdlDocument>)
        ensures { self.new.held.document ≡ Some document.value }
    {
        drop(std::mem::replace(self, Handle::of(document)).into_box());
    }
}
