// The five ranges of DefParamIndices.
//
// Ported from src/syntax/def.rs of starlark_syntax 0.14.2, and changed: a range is a struct of two numbers.
// Copyright 2018 The Starlark in Rust Authors. Copyright (c) Facebook, Inc. and its affiliates.
// Licensed under Apache-2.0.
ghost use Rattle.std.specs.Prelude.{◌≡◌};
ghost use Rattle.parameters.specs.Indices.{pos_only, pos_or_named, args_range, named_only, kwargs_range, place_range};

use crate::{DefParamIndices, Range};

// The range of a place; if there is no place, the empty range at `none`.
fn place_range(place: Option<u32>, none: usize) -> Range
    ensures { result ≡ place_range place none }
{
    match place {
        Some(i) => {
            let from = i as usize;
            Range {
                from,
                upto: from + 1,
            }
        }
        None => Range {
            from: none,
            upto: none,
        },
    }
}

impl DefParamIndices {
    // The ordinary parameters before `/`.
    pub fn pos_only(self) -> Range
        ensures { result ≡ pos_only self }
    {
        Range {
            from: 0,
            upto: self.num_positional_only as usize,
        }
    }

    // The ordinary parameters after `/`, before any star.
    pub fn pos_or_named(self) -> Range
        ensures { result ≡ pos_or_named self }
    {
        Range {
            from: self.num_positional_only as usize,
            upto: self.num_positional as usize,
        }
    }

    // `*args`; if there is none, the empty range at the end of pos_or_named.
    pub fn args_range(self) -> Range
        ensures { result ≡ args_range self }
    {
        let args = self.args;
        place_range(args, self.num_positional as usize)
    }

    // The ordinary parameters after the star.
    pub fn named_only(self, param_count: usize) -> Range
        ensures { result ≡ named_only self param_count }
    {
        let args = self.args_range();
        let kwargs = self.kwargs_range(param_count);
        Range {
            from: args.upto,
            upto: kwargs.from,
        }
    }

    // `**kwargs`; if there is none, the empty range at the flat count.
    pub fn kwargs_range(self, param_count: usize) -> Range
        ensures { result ≡ kwargs_range self param_count }
    {
        let kwargs = self.kwargs;
        place_range(kwargs, param_count)
    }
}
