// That the mesh file's own definitions read back what a text says, once it is turned into a file:
// the mesh, the corner limit and the split, with a header that is right (specs/ReadBack.antt). Laws
// alone. Leans on mesh_text (the text and its file) and listing (the file read).
#![tactic(auto)]
