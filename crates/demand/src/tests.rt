//! Tables of texts over a small city. What they give was worked out by hand, by docs/FORMATS.md.

mod city;
mod demand_texts;
mod told;
mod walk_texts;
mod zone_texts;
