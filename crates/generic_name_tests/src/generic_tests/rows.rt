/// Kind (D for data sets), pattern, name, and whether the pattern covers the name.
pub(crate) const COVERS: &[u8] = b"G|X-Y.@%.*.X%Y.ABCDEFGH|@9|no\n\
    D|A.$X.ABCDEFGH|A.B.ABC|no\n\
    D|B.#.*.ABCDEFGH.**|$X.A|no\n\
    D|ABC.A%|$X.ABCDEFGH.A1.A1|no\n\
    G|**.**.@9.AB.A%C|AB.$X|no\n\
    G|*.*|AB.ABCDEFGH|yes\n\
    D|A.#|B.ABC.ABC|no\n\
    G|A%CDEFGH.A%CDEFGH|AB.AB.A1|no\n\
    D|AB.**.@9|ABCDEFGH.A1.ABC.B.@9|no\n\
    D|@9.X-Y|ABCDEFGH.A|no\n\
    G|A1.A.B%.*|@9|no\n\
    D|AB.#*.B.$X|@9|no\n\
    G|**.**.B|#.ABCDEFGH.@9|no\n\
    D|ABC.*.*.A%.A|AB.@9|no\n\
    D|A1|ABCDEFGH.AB|no\n\
    D|A.B%|X-Y.#.ABC.@9|no\n\
    D|#.**.*|B.X-Y.#|no\n\
    D|@9.@9.B|X-Y.X-Y.X-Y|no\n\
    G|$X.*|AB.X-Y.@9.X-Y.A|no\n\
    D|AB.**|ABC.A1|no\n\
    G|A%CDEFGH.@9|X-Y|no\n\
    D|X-Y.A*.X-Y.*|X-Y.X-Y.X-Y.AB|no\n\
    G|#.*|B.ABC|no\n\
    D|X-Y|@9.AB.AB|no\n\
    G|B.AB.**.B*|X-Y.ABC.A|no\n\
    D|B.$X|X-Y.#|no\n\
    G|B.AB|AB.X-Y.$X|no\n\
    G|**.*|#|yes\n\
    D|A1.A1*|ABCDEFGH.B.@9|no\n\
    D|$X.**.B.A%.**|$X.A1|no\n\
    G|X%Y.X-Y.B|B.A.AB.AB.X-Y|no\n\
    D|A1.A1.**|ABC.AB.$X.#.A|no\n\
    G|A%C|A1.ABC.B|no\n\
    G|ABC.**|@9.A.AB|no\n\
    G|$%.A1|$X.X-Y.AB.AB|no\n\
    D|A1.ABCDEFGH.A1*|ABCDEFGH.ABC.ABC.ABC|no\n\
    D|A.A*.A.*|B.AB|no\n\
    G|@*.#%.AB|B|no\n\
    D|$X.$X.**|ABCDEFGH.X-Y.AB.#.@9|no\n\
    D|#|$X.ABCDEFGH.$X|no\n\
    D|B.A1|X-Y.AB|no\n\
    D|A|B.$X|no\n\
    D|B.A*.A|B.X-Y.X-Y.A.$X|no\n\
    D|AB.$X|ABC.X-Y|no\n\
    D|A1.A1.AB|@9.@9.A.ABC.ABC|no\n\
    G|*.AB.*|A1.X-Y.A1.$X.#|no\n\
    D|X-Y.A.ABC.@9.@9|$X.AB.#.X-Y|no\n\
    G|**.ABCDEFGH.*|AB.B.ABCDEFGH.B.@9|yes\n\
    G|*|@9.X-Y.@9.A1.$X|yes\n\
    G|*.B.@9|B.A.@9.ABCDEFGH.A|no\n\
    D|@9.#%.**|ABCDEFGH.AB|no\n\
    G|@9|B|no\n\
    D|$X.AB|AB.$X.$X.$X.#|no\n\
    D|A1.A%|ABCDEFGH.AB|no\n\
    D|ABC.A.ABC|ABC.$X|no\n\
    G|*|@9|yes\n\
    D|AB.#|A|no\n\
    G|AB*.AB|B.$X.AB.$X.A|no\n\
    G|**.**.*|AB.ABCDEFGH.A|yes\n\
    D|$X.B.X-Y*|A.A.ABCDEFGH|no\n\
    G|#.A1.*|@9.$X.@9.X-Y.X-Y|no\n\
    G|B.#|ABCDEFGH.ABC.$X|no\n\
    D|X-Y|X-Y|yes\n\
    G|*|A.B|yes\n\
    G|X-*.*.**.#*.AB|@9.ABC.A.#.A|no\n\
    D|A1.A*|B.A1.ABC|no\n\
    D|A1.#.X-Y|X-Y.A1.AB|no\n\
    G|B%.B%|B.A.ABCDEFGH|no\n\
    G|**.A1.*|X-Y.AB|no\n\
    D|@9.ABCDEFG*.*|#.@9.X-Y|no\n\
    D|ABCDEFGH.ABCDEFGH|ABCDEFGH.A1|no\n\
    G|ABCDEFGH.A1.**.*.*|ABCDEFGH.A.@9|no\n\
    D|ABCDEFGH.A%.$X|$X.A|no\n\
    G|AB.A%|ABC.A1.@9|no\n\
    D|$X.*.**|#.ABC.B.#|no\n\
    G|$X*|A.ABCDEFGH.A.X-Y|no\n\
    D|A.@9|A1.B.ABC.#.#|no\n\
    G|**|A.#.A1|yes\n\
    G|@9.#|X-Y.#|no\n\
    D|A.ABC|A.$X.B.@9|no\n\
    G|A.X-Y*.#%|AB|no\n\
    G|A1.A%C|$X.X-Y.X-Y|no\n\
    G|**.*|$X.ABC.AB.@9|yes\n\
    G|$X*.X%Y|ABC.AB.AB.B|no\n\
    G|@%|@9.ABCDEFGH.@9.A1|no\n\
    G|A1*.*|ABC.AB.$X.AB.A1|no\n\
    D|$X.*|A.AB|no\n\
    G|A1.$X*.**|B.ABC.X-Y.B|no\n\
    D|X-Y.A*.@9.*.AB*|$X.ABC.AB|no\n\
    D|A1.**.#|ABCDEFGH.A1|no\n\
    G|**.AB*|A.A.A1|no\n\
    D|X-Y.*|A1.@9|no\n\
    D|A.**|A1|no\n\
    G|X%Y|B.A|no\n\
    G|ABC.@9*.B.@9*.*|A.AB.$X|no\n\
    G|#.@*.B.#.A1*|ABC.AB|no\n\
    D|ABCDEFGH|@9.ABC.AB|no\n\
    D|$X.#.#%.**|$X.A.ABCDEFGH.@9|no\n\
    G|ABCDEFGH.B.@%|$X.X-Y.ABCDEFGH|no\n\
    D|#.ABCDEFG*.X*|@9.AB.AB.B.A1|no\n\
    D|@9.B.A.X-Y.B|#.#|no\n\
    G|ABC.B*.A.A%CDEFGH.**|ABC.#.ABC.$X|no\n\
    G|#.A1.ABC.AB|ABCDEFGH.AB|no\n\
    G|ABCDEFGH.*|ABC|no\n\
    G|A1.**.A%.ABCDEFG*.A%|#|no\n\
    G|@9.**|B.@9|no\n\
    G|ABC.*.B*|ABCDEFGH.A1|no\n\
    D|#.A.A%.*|#.ABCDEFGH.ABC|no\n\
    G|ABC.B.B|$X.ABC.ABCDEFGH.#|no\n\
    G|**|ABCDEFGH.A1.@9.B|yes\n\
    D|#|A.$X.X-Y.B.X-Y|no\n\
    D|AB.B|$X.X-Y.$X.A1|no\n\
    D|X-Y.ABCDEFGH|$X|no\n\
    G|*.**.@9*.*|A1|no\n\
    D|B.A*.A%C.X%Y|#|no\n\
    D|ABCDEFGH.*|ABCDEFGH.AB.X-Y.#.B|no\n\
    G|$X.#*.ABCDEFGH.*.A*|AB.A1|no\n\
    G|$X|AB.A.ABC|no\n\
    D|#.B.#|B.$X.X-Y|no\n\
    D|AB.$X|$X.ABCDEFGH.#|no\n\
    D|$X.B|X-Y.@9.AB|no\n\
    D|ABC.X-Y|B.ABC|no\n\
    G|#*.ABCDEFGH.**.**|A1.A1.AB|no\n\
    D|AB.X-Y.**|AB.ABCDEFGH.A1.$X.#|no\n\
    D|@9.#.X-*|B.B|no\n\
    D|A.**.*|A1.X-Y|no\n\
    D|$X.A.ABCDEFGH.ABCDEFGH.AB*|X-Y|no\n\
    D|AB.X-Y.**.B.ABC|ABC.#.$X.ABC.ABCDEFGH|no\n\
    G|#%.ABC.*|ABC.@9|no\n\
    G|ABC.*|ABCDEFGH.A.ABC|no\n\
    G|ABC.A%C.B.*|A.AB|no\n\
    G|B|AB.ABC.ABC|no\n\
    G|ABCDEFGH.B%.**|$X|no\n\
    G|**.AB|#.AB|yes\n\
    G|*|ABC.@9.B.AB|yes\n\
    D|#.*|B.X-Y.ABCDEFGH|no\n\
    G|B|B|yes\n\
    D|#.B*|ABCDEFGH.@9|no\n\
    D|@9.A%|$X.A1.AB|no\n\
    D|@9.B%.*.A1.*|X-Y.@9.#|no\n\
    D|ABCDEFGH.$%.*|ABC.ABCDEFGH.AB|no\n\
    G|AB.*.ABCDE*.A1.*|X-Y.A.$X|no\n\
    G|B*|AB|no\n\
    G|**.A1.ABC|A.X-Y.#|no\n\
    D|ABC.@9|AB.A1.AB.@9|no\n\
    D|A|#.ABCDEFGH.$X.B|no\n\
    D|A1|$X.AB.A1.ABCDEFGH.A|no\n\
    G|$X.A.@9.*.**|@9.ABC|no\n\
    D|$X.@9|B|no\n\
    G|$X.X-Y.X-Y.A1|A.ABC.A|no\n\
    D|A1.ABCDEFGH.*|A.@9.B.ABC.A|no\n\
    D|@9.@9|@9.ABC.ABC|no\n\
    G|B|ABC.@9|no\n\
    G|$X|B.ABC.@9|no\n\
    G|*.ABC.X-Y.$X|A1.B|no\n\
    G|#.A%C|ABC.$X|no\n\
    D|@9.X%Y.$X|$X.B.A1|no\n\
    G|ABC.ABC.B%|#.$X.$X.$X|no\n\
    G|*.**|A.$X.#|yes\n\
    G|A1.X*|AB|no\n\
    G|X-Y.A1.#%.@9*.@9|$X.B|no\n\
    G|X-Y.@9.*|A|no\n\
    D|#.$X.AB*.**|$X.AB|no\n\
    D|A.A.A1|ABCDEFGH.#|no\n\
    D|AB.#|AB.ABCDEFGH.AB|no\n\
    G|**|ABCDEFGH.ABCDEFGH|yes\n\
    G|**|ABCDEFGH.ABCDEFGH|yes\n\
    G|*.**|ABC.B.$X.B.A1|yes\n\
    G|**.**.**|A.AB.#.ABCDEFGH|yes\n\
    G|**.A*|A.$X.AB|yes\n\
    G|**|X-Y.@9.A1|yes\n\
    G|**.*.*|@9.B.A.ABCDEFGH.ABC|yes\n\
    G|**|A.A|yes\n\
    G|**.**|@9.#.AB.X-Y.@9|yes\n\
    G|**.@%.**|X-Y.ABCDEFGH.AB.@9|yes\n\
    G|*.**|@9.$X.AB|yes\n\
    G|*.**|ABC.#|yes\n\
    G|**|ABC.AB.$X|yes\n\
    G|ABC*|ABC.#.$X.A1|yes\n\
    G|*|A1.ABC.ABCDEFGH.@9.A1|yes\n\
    G|**|A.$X.B.X-Y.AB|yes\n\
    G|#.**|#.$X.B|yes\n\
    G|**.**.*|$X.ABC|yes\n\
    G|*|ABCDEFGH.#|yes\n\
    D|X-Y.**|X-Y.ABC.B.B.ABC|yes\n\
    D|A1|A1|yes\n\
    G|*|X-Y.#.$X.@9|yes\n\
    G|*.*.**|B.$X|yes\n\
    G|*|A.$X.A.A1|yes\n\
    G|*.*|ABC.A1.AB.B.A1|yes\n\
    G|*|B.B|yes\n\
    G|**|B.@9|yes\n\
    G|*.**|B.@9.ABCDEFGH|yes\n\
    G|*.**.**|AB|yes\n\
    D|B.*.*.*|B.@9.AB.A|yes\n\
    G|*|B|yes\n\
    G|**|ABC.@9.$X|yes\n\
    G|*.*|AB.$X.ABC|yes\n\
    D|A1.**.**|A1|yes\n\
    G|*|ABCDEFGH.B|yes\n\
    G|**|A.#|yes\n\
    G|**.@9|#.@9|yes\n\
    G|*|@9.X-Y.A.#|yes\n\
    G|**|#|yes\n\
    G|*|ABCDEFGH.B|yes\n\
    G|**.*|ABC.$X.ABCDEFGH.A.ABCDEFGH|yes\n\
    G|*.**.A*.**|$X.ABC.A1.ABCDEFGH|yes\n\
    G|**|$X.$X.$X.A1|yes\n\
    G|**|A.$X|yes\n\
    G|*.*|X-Y.A1.$X|yes\n\
    D|AB.*|AB.ABC|yes\n\
    G|**|ABCDEFGH.#.A1|yes\n\
    D|A.**.**|A.A1.A1|yes\n\
    G|*|B|yes\n\
    G|*|ABCDEFGH.ABCDEFGH.X-Y|yes\n\
    D|ABC.**|ABC.AB.#|yes\n\
    G|**.*.AB*|A.B.AB|yes\n\
    G|**|ABCDEFGH.A1.B|yes\n\
    G|*.@9*|$X.@9.ABCDEFGH|yes\n\
    G|**.**|A.#.ABCDEFGH|yes\n\
    G|*|$X.ABCDEFGH|yes\n\
    G|**.**.**|AB.A1.#|yes\n\
    G|**|B|yes\n\
    G|A*|ABC|yes\n\
    G|**.**|A.A.ABC|yes\n\
    G|**.A%CDEFGH|#.B.@9.ABC.ABCDEFGH|yes\n\
    G|**.*.**.*|B.B.ABC.@9.A|yes\n\
    G|*|A1|yes\n\
    G|**.*.**|#|yes\n\
    G|**.**.**|A1.ABC|yes\n\
    G|$*|$X|yes\n\
    G|*.**|@9.A1.A1|yes\n\
    G|*.A1|A.A1|yes\n\
    G|**.AB*|B.ABC|yes\n\
    G|*|ABCDEFGH.B.#.A.ABC|yes\n\
    G|*.ABC*.**|@9.ABCDEFGH.A|yes\n\
    G|**.*|ABC|yes\n\
    G|**.**|@9.#.#|yes\n\
    G|*.**.ABC*|ABCDEFGH.@9.ABCDEFGH.ABC.ABCDEFGH|yes\n\
    D|A.**|A.A.ABCDEFGH|yes\n\
    G|*.**.*|B.@9.@9|yes\n\
    G|*|ABCDEFGH.AB.#|yes\n\
    G|@9.**.*|@9.A1|yes\n\
    G|ABCDEFGH|ABCDEFGH|yes\n\
    G|*|@9.B|yes\n\
    G|*.*|AB.A|yes\n\
    G|**|$X.B|yes\n\
    D|$X.**.**|$X.ABC.ABCDEFGH.A|yes\n\
    G|**.*|A.AB.ABC.X-Y|yes\n\
    G|**|ABC|yes\n\
    G|**.*.*|A1.A1|yes\n\
    G|A*.**.**|AB.X-Y|yes\n\
    G|**.*.**|B|yes\n\
    G|@9.**.**|@9.@9|yes\n\
    G|**.**|ABC.#.@9.$X.ABC|yes\n\
    G|A*.*.*|AB.#.B.@9.A1|yes\n\
    G|*.**.**|AB|yes\n\
    G|**|@9|yes\n\
    G|*.*.**.**|$X.ABCDEFGH.X-Y.ABCDEFGH.X-Y|yes\n\
    G|X-*|X-Y.#.A1.ABC.ABC|yes\n\
    G|**.*.A*|B.$X.A|yes\n\
    G|*.#*|#.#|yes\n\
    G|**.**|ABC.AB|yes\n\
    G|*|@9.$X|yes\n\
    G|*.*|$X.#.X-Y.ABCDEFGH|yes\n\
    G|**.**.*|X-Y.#.ABC.A.A|yes\n\
    G|A*|ABC|yes\n\
    G|A*|AB.A.ABCDEFGH|yes\n\
    G|**.*|@9.A1.B.B|yes\n\
    G|**.**.*.**.*|X-Y.A1.A|yes\n\
    G|*.**.*.*.**|@9.@9.X-Y.AB.@9|yes\n\
    G|$X.**.AB*|$X.AB.@9.ABC.$X|yes\n\
    G|**.*|$X.B|yes\n\
    G|**.*|A.$X|yes\n\
    G|*.AB|$X.AB|yes\n\
    G|**|@9.@9.AB|yes\n\
    D|B.**.*|B.$X.ABCDEFGH|yes\n\
    G|**|ABC.#.ABC.A.@9|yes\n\
    G|*|@9.X-Y.#.B|yes\n\
    G|**|#.@9.B.ABC|yes\n\
    G|B.**|B.ABC.A.ABC.ABCDEFGH|yes\n\
    G|**|$X.A.ABC.$X|yes\n\
    G|A.**|A.B.$X|yes\n\
    G|**|A1.ABC.B.AB.AB|yes\n\
    G|**.**.*|@9.A1.A|yes\n\
    D|B.*.**|B.B.$X.AB|yes\n\
    G|*|A.A.A1|yes\n\
    G|*|ABC|yes\n\
    G|**.A*|#.A|yes\n\
    G|A*.**|A.ABCDEFGH.ABCDEFGH.$X|yes\n\
    G|**|X-Y.@9.X-Y|yes\n\
    G|**.**|A1.$X.A1.A1.AB|yes\n\
    G|**|A.A1.A1.X-Y.$X|yes\n\
    G|A*|A1.B.ABCDEFGH.@9.@9|yes\n\
    G|*.*|A.A.@9.#.AB|yes\n\
    G|*|@9.A.#.ABC.$X|yes\n\
    G|*|A.B|yes\n\
    G|*.*|@9.@9.ABC.ABC.AB|yes\n\
    G|**|AB|yes\n\
    G|**|#.X-Y.AB.@9.A1|yes";

/// Kind, two patterns, and whether the first is before the second.
pub(crate) const BEFORE: &[u8] = b"G|X-Y.A*|@9.@9*.ABC*|no\n\
    D|$X.@9|@9.ABCDEFGH.$*.**|yes\n\
    G|B|*.A%.#.**|yes\n\
    D|$X.**.A1|AB.X-Y.@9.B.*|yes\n\
    G|ABCDEFGH*.#.@9.*|$X.@9.ABC.A1.**|no\n\
    G|A.**|*.$%|yes\n\
    D|B.**.X%Y.A%|X-Y|yes\n\
    G|AB.*.*.A%CDEFGH|$X.#%|no\n\
    G|X-Y.*.$X|#.B|no\n\
    G|*.A|X-Y.ABCDEFGH.ABCDEFGH.X-Y|no\n\
    G|**|**.*.A1|no\n\
    G|**.*|$*.**|no\n\
    G|$X.**.B.**.*|ABCDEFGH|yes\n\
    G|A1.A|$%|no\n\
    D|ABC.A1.A|@9.**.A%.A|no\n\
    D|B.AB*.**.**.#|A|no\n\
    G|A*.A1|A%|no\n\
    G|ABCD*.ABCDEFGH.$X.#|$*.#|no\n\
    D|B.@9.ABCDEFGH.#.A*|AB.**|no\n\
    D|$X|A1.ABC|yes\n\
    G|A.B|$X.@9*.ABCDEFGH.X%Y|no\n\
    D|A.A1.ABC*.AB|A1.X-Y.ABC|no\n\
    G|A%|ABCDEFGH.A%|no\n\
    G|ABCDEFG*.ABC.$X|X%Y.#.$X|yes\n\
    D|$X.$X.ABC|#.X%Y|no\n\
    D|B.**|B.@9.B.@9|no\n\
    D|X-Y.@9.#|AB.A*.$X*.X-Y|no\n\
    G|#.ABC.@9|**|yes\n\
    G|**.AB.AB|X-Y.$X.AB.$X|no\n\
    D|@9.@%|ABCDEFGH.@9|yes\n\
    D|B.AB*.B|ABC.A%.*.**|no\n\
    D|A1.$%|ABCDEFGH.@9.X-Y|yes\n\
    G|B.B*.**|**.A1.**|yes\n\
    D|@9.A%|$X.#.#|no\n\
    D|#.A%.$X|AB|yes\n\
    G|*|**.A.*.AB|yes\n\
    G|$*.A%CDEFGH|*.ABCDEFGH|yes\n\
    G|A1.$X|ABC.**.**.AB.B|yes\n\
    D|$X.A%.ABC.A.X-Y|#.@9|no\n\
    D|ABC|#.B%|no\n\
    G|AB.B%|A%.$%.ABCDEFGH.A*|yes\n\
    D|B.$X.A1.AB|#.@9|no\n\
    D|AB|A|yes\n\
    G|#.$X.*|ABCDEFGH|yes\n\
    G|*.A*.**|**.*.A1|yes\n\
    D|X-Y.A%CDEFGH.*|A.A1.ABCDEFGH.A1.A|no\n\
    G|*.#|B.B.X%Y|no\n\
    G|*.X-Y.B|*.@%|no\n\
    G|$X*.**.A.@9|A*.B%.*.$%.A%|yes\n\
    G|**.X-Y.*|X%Y.$X.AB.AB*|no\n\
    G|@*.A%|AB|yes\n\
    D|B|ABCDEFGH.A|no\n\
    G|A%CDEFGH.**|A*.X-Y.A.A%C.AB|yes\n\
    D|@9.@9.A1.@9|@9.X%Y|yes\n\
    D|A1|A.ABC.ABCDEFGH|yes\n\
    G|B.A.B.*.A%|A%.@9.**|no\n\
    G|X-*.AB*.ABCDEFGH.A%C|A1.*.*|no\n\
    G|B.**.ABCDEF*.$%.ABC|$X.X%Y.B*.A.*|no\n\
    D|A1.*.*.**|AB.A1.$X|yes\n\
    D|X-Y.X%Y.*|A1.@9|no\n\
    D|@9.*|AB|yes\n\
    G|**.$*.*|A*.ABCDEFGH.A.@9.@9|no\n\
    G|**.**.A.**.@9|X-Y.AB*.A1|no\n\
    D|A.A1.$X|A.X-Y.#|yes\n\
    G|**.**.A%|AB.*.*.**|no\n\
    G|A|A1.ABCDEF*.X-Y.$X|no\n\
    G|A1.A.**.ABC|A1.**|yes\n\
    D|ABCDEFGH.*|AB.A.#.#|yes\n\
    D|#|#.X-Y|no\n\
    D|ABCDEFGH.**.*.ABC.ABCDEFGH|X-Y.*.$X|yes\n\
    D|A1.$X*|$X.A.**.*|no\n\
    G|$%.A1|$X.A1.ABC.ABC|no\n\
    G|AB.**.**|*.A%C.AB.**.**|yes\n\
    G|*.B.**|A1|no\n\
    D|B.B.AB|X-Y.$X.A|yes\n\
    G|$%.A1*.B%|A1*.**.B.*.**|yes\n\
    D|AB.*.X-Y|@9.A%.AB*|no\n\
    D|#.*|ABC.**.A|yes\n\
    G|*.$X.*|AB.**|no\n\
    G|A%CDEFGH.@9.*|@9.#.@9.AB.AB|no\n\
    D|AB.AB*|A1.A%.*.*|no\n\
    D|A.$%|$X.$X|no\n\
    G|A.**.AB*.**.X%Y|X-Y.B%.**|yes\n\
    G|#%|#.$%.@9*.A%|yes\n\
    D|A1.$X.*.A1|A1.AB.ABCDEFGH|yes\n\
    D|AB.#.X-Y|X-Y.*|yes\n\
    G|*.X-Y|$X.X-Y.A1.B|no\n\
    G|ABC|B.$X|yes\n\
    G|$%.ABC.X-Y.A%.$%|X-Y.B%|yes\n\
    G|$X.AB.**|X-Y.**.A|yes\n\
    D|#.#|ABC.ABC|yes\n\
    G|X-Y.B|B.A.ABC|no\n\
    D|#|ABCDEFGH|yes\n\
    G|#.@%.ABCDEFGH|**.$X.*|yes\n\
    D|ABCDEFGH.A1.*|AB.A1.A|yes\n\
    G|@9.A*.*.A1|ABCDEFGH.$X.A.@9|yes\n\
    G|**.**.**.#.*|*.**|no\n\
    D|B.#|ABC.X-Y.ABCDEFGH.**|no\n\
    D|X-Y.#.B|AB.X%Y|no\n\
    D|$X.ABCDEFGH|ABCDEFGH.**.@*.*.A1|yes\n\
    G|ABC.A1.B.ABC.AB|X-Y.**.B|yes\n\
    D|$X.ABC*|@9.AB.B|yes\n\
    D|X-Y.ABCDEFGH.#|$X.$%|no\n\
    G|A.*|A*.A|yes\n\
    D|#|$X.A.@9.ABC|yes\n\
    D|AB.*|@9.B|no\n\
    G|**.X-Y.ABCDEFGH.X-Y.**|$%.A1|no\n\
    G|B.**|A*.*|no\n\
    G|ABC|A.$X.A1.A%C|yes\n\
    G|**.X-Y.A|@9.A%.X-Y.**.**|no\n\
    D|X-Y.X%Y.A1|B.*.*|no\n\
    D|@9.**.ABC|#.*.$%.A1|no\n\
    G|A1*.B|*.**.AB|yes\n\
    G|X-Y.*|$X.ABC*.$X*|no\n\
    G|*|ABC*|no\n\
    D|ABC.A|ABC.#.ABC|no\n\
    D|X-Y.X-Y.**|A1.ABC|no\n\
    D|X-Y|$X.@9|no\n\
    D|AB.#.A1.A|#|no\n\
    G|*.**.X-*.X*.ABC|@9.A%.**|no\n\
    G|$X.A|A.B|yes\n\
    G|*|ABC*.*|no\n\
    G|A.#%.A%|A%|no\n\
    G|B.A1*.$X.ABCDEFGH|#%.**.**|no\n\
    G|*.@%.A1.A1.$X|@9.**|no\n\
    D|@9|ABC.A%C.A1.AB.A*|yes\n\
    D|B|X-Y.#|yes\n\
    D|A1.**.ABC*|ABCDEFGH|yes\n\
    G|A.$X|A1.*|no\n\
    G|@9*.$X.*.*.**|*.$X|yes\n\
    G|**.*.@9|X-Y|no\n\
    G|A.*.A1|ABC.A1.X-Y|no\n\
    G|**.A.@9|#%.*.$X.*|no\n\
    D|#.#*.A%|$X.A|yes\n\
    G|#|B.**.ABC*.#|yes\n\
    G|X-Y|ABCDEFGH|no\n\
    D|A.A1.**|B|yes\n\
    G|A%C.*.*|ABCDEFGH.A.A1|no\n\
    D|@9.*.X%Y|A.AB.#%|yes\n\
    G|**|*.*.#%.A1.**|no\n\
    G|#%.$X.*|**|yes\n\
    D|$X.**|ABCDEFGH.**.$X|yes\n\
    G|$X.#.ABCDEFGH.*|B*.AB*.A1.@9.**|yes\n\
    G|**.**|B*.ABCDEFGH.#%.**.A|no\n\
    D|ABCDEFGH.@%.B.#|B|yes\n\
    G|@%.**|X-Y.A1.X-Y*|yes\n\
    D|X-Y.X-Y.X-Y.**.**|ABCDEFGH.$X|no\n\
    D|ABC.#.#%.*|A1.AB.ABCDEFGH.$X|no\n\
    G|A1.**.*.**|*.A|yes\n\
    G|A|**|yes\n\
    D|B.@9.@9|#.ABC.X-Y.AB|no\n\
    D|$X|X-Y|yes\n\
    D|$X|X-Y.#.#*.X-Y|yes\n\
    G|@9|X-Y*|yes\n\
    G|ABC.**.A1.$%.A*|@9.A.A|no\n\
    G|ABCDEFGH.A1*|@%|no\n\
    D|A1|$X.B.X-Y.ABC|no\n\
    G|*.**.X-Y|X-*.B.*|no\n\
    D|@9.*|X-Y.B.AB|yes\n\
    G|ABCDEFGH|*.*.A*|yes\n\
    D|ABCDEFGH|ABC.$X.@9|yes\n\
    G|B.**.AB.@9|ABC.$X*.B.*|no\n\
    G|**.A1*|$X.B.A1|no\n\
    D|ABC.X-Y.A%.ABC|ABC.@9|no\n\
    G|A1|*.*.ABCDEFGH.@9.**|yes\n\
    D|B.*|A1.B.*|no\n\
    G|B.*|AB.X-Y.ABCDEFGH|no\n\
    G|@9.**.*|X%Y|yes\n\
    D|X-Y.B*.$X.ABCDEFGH|AB.#|no\n\
    D|ABCDEFGH|ABC.A|yes\n\
    G|*.#|ABCDEFGH|no\n\
    G|B%.A1.#*|ABC.B|no\n\
    G|B.**|A1.AB.ABCDEFGH|no\n\
    D|ABC.*.#.A1.ABCDEFGH|ABCDEFGH.#.#%|no\n\
    D|X-Y.X%Y.*|ABCDEFGH|no\n\
    D|A.*|ABCDEFGH.A.A.A1.AB|no\n\
    D|@9|ABCDEFGH.#*|yes\n\
    G|ABC.ABC|A|yes\n\
    D|ABCDEFGH.*.ABC|ABC.ABCDEFGH.B.@9|yes\n\
    D|@9.ABCDEFGH.@9.#%|X-Y.A|yes\n\
    G|AB.$X.*.ABC.$*|$X.*|no\n\
    G|*|ABC.@9.AB.#.A|no\n\
    D|X-Y|X-Y.B.@9|no\n\
    G|*.@9.*.**|AB.**.X-*|no\n\
    D|AB.A1|ABC.X-Y.$X.*.**|no\n\
    D|AB|#.A|no\n\
    G|X-Y|B.X-Y.A*.**.A*|no\n\
    G|#%.X-Y.ABC|X-Y.X-Y.*.A|yes\n\
    D|ABCDEFGH.A|B|yes\n\
    G|*.A1.**|X-Y.ABC|no\n\
    G|*.@9.A.B%|**.A%.*|yes\n\
    D|ABCDEFGH.**|AB.**.@9.**|yes\n\
    D|$X|A.$X.#|yes\n\
    D|AB.*.#|#.A.AB|no\n\
    G|AB.#.*.@9.X-Y|#.@9.X-Y.B|no\n\
    D|ABCDEFGH.X-*.B*|#.ABC*.*|no\n\
    D|ABCDEFGH.**.B%|ABCDEFGH.ABC.#|no\n\
    G|B.*.A%|X%Y.AB|yes\n\
    G|*|A*.@%|no\n\
    G|**.$X.X-Y|#*.**|no\n\
    D|ABCDEFGH.A1|@9.AB.AB.ABC.A1|no\n\
    G|ABCDEFGH|$X.**.ABCDEFGH|no\n\
    G|**.A*.A.*.*|A.A1|no\n\
    D|ABCDEFGH.X-Y*|ABCDEFGH.ABCDEFGH.A%CDEFGH|no\n\
    G|ABCDEFGH|#%.X-*.A1*|no\n\
    D|X-Y.X-Y.*.*|A1.A|no\n\
    D|A1.A%C.A%|X-Y.$*.*.#%|yes\n\
    G|*|ABCDEFGH|no\n\
    G|$X.*|X%Y|yes\n\
    G|#.**.**|$X|yes\n\
    D|@9.**.**.**.#|X-Y.X-Y|yes\n\
    G|*.*.X-Y|ABC.AB.ABC.$X.**|no\n\
    D|@9.B.#.ABCDEFGH|B.*|yes\n\
    D|ABCDEFGH.A|A1.$X.@9.A.ABC|no\n\
    G|*.A.AB.*|ABC.ABC|no\n\
    G|**|A|no\n\
    G|B|**|yes\n\
    G|*.AB.AB.A%.**|A.B.A1|no\n\
    D|ABCDEFGH|ABC.A.A1|yes\n\
    D|A|AB.#.B.A1|no\n\
    G|@%.A%|$X|no\n\
    D|ABC.AB.*.@%.**|B.#.#.ABC|yes\n\
    D|ABC.**.*|#.A.A1|no\n\
    G|X-Y.$X*|$X.#|no\n\
    D|X-Y.A*.ABC*|$X.B.A1|no\n\
    G|ABC.A%|A.@9.*.A%.AB|yes\n\
    G|*.A*|AB*.$X|no\n\
    G|X-Y.$*.@9*.*|X*.A%CDEFGH.**.*|yes\n\
    G|ABC.#|@9.X-Y|no\n\
    G|**.B.*.@*.$*|#.#|no\n\
    G|A.#.*|$*.A%C.**.B|no\n\
    G|A1.A1|#.#|no\n\
    G|@%|A%|yes\n\
    D|@9.B|A.@9|yes\n\
    D|#.*.AB*|#.#.ABCDEFGH|no\n\
    D|A.**.X-*|ABC.ABCDEFGH|no\n\
    G|*.ABC*.*|B|no\n\
    G|$X.A%C.*.#.#*|@9.B.$X.X-Y.B*|yes\n\
    D|B.#|A.ABCD*|no\n\
    G|AB.A*|A1.ABCDEFGH.**|no\n\
    D|#.**.A%C|X-Y.ABCDEFGH|yes\n\
    D|B.$X|X-Y.AB*.**|yes\n\
    G|$X*.*.*.**|*.A%.**|yes\n\
    G|A*|#.@9|no\n\
    G|ABC.*|**.B*.*|yes\n\
    G|A1*.**.*|@9.A1.#|no\n\
    G|**|ABCDEFGH.#.A|no\n\
    G|@9|**.**.**|yes\n\
    G|A.@9*|ABC.A1|no\n\
    G|*.**|#.AB|no";

/// Kind, member, user, group, and what the member stands for, or none.
pub(crate) const RESOLVE: &[u8] = b"D|&RACUID.**|JOE|G1|JOE.**\n\
    G|&RACUID.**|JOE|G1|JOE.**\n\
    D|&RACUID.**|9X|SYS1|none\n\
    G|&RACUID.**|9X|SYS1|9X.**\n\
    D|&RACUID.**|ABCDEFGH|#|ABCDEFGH.**\n\
    G|&RACUID.**|ABCDEFGH|#|ABCDEFGH.**\n\
    D|A.&RACUID|JOE|G1|A.JOE\n\
    G|A.&RACUID|JOE|G1|A.JOE\n\
    D|A.&RACUID|9X|SYS1|none\n\
    G|A.&RACUID|9X|SYS1|A.9X\n\
    D|A.&RACUID|ABCDEFGH|#|A.ABCDEFGH\n\
    G|A.&RACUID|ABCDEFGH|#|A.ABCDEFGH\n\
    D|A.&RACGPID.*|JOE|G1|A.G1.*\n\
    G|A.&RACGPID.*|JOE|G1|A.G1.*\n\
    D|A.&RACGPID.*|9X|SYS1|A.SYS1.*\n\
    G|A.&RACGPID.*|9X|SYS1|A.SYS1.*\n\
    D|A.&RACGPID.*|ABCDEFGH|#|A.#.*\n\
    G|A.&RACGPID.*|ABCDEFGH|#|A.#.*\n\
    D|&RACGPID.&RACUID.X|JOE|G1|G1.JOE.X\n\
    G|&RACGPID.&RACUID.X|JOE|G1|G1.JOE.X\n\
    D|&RACGPID.&RACUID.X|9X|SYS1|none\n\
    G|&RACGPID.&RACUID.X|9X|SYS1|SYS1.9X.X\n\
    D|&RACGPID.&RACUID.X|ABCDEFGH|#|#.ABCDEFGH.X\n\
    G|&RACGPID.&RACUID.X|ABCDEFGH|#|#.ABCDEFGH.X\n\
    D|A.**|JOE|G1|A.**\n\
    G|A.**|JOE|G1|A.**\n\
    D|A.**|9X|SYS1|A.**\n\
    G|A.**|9X|SYS1|A.**\n\
    D|A.**|ABCDEFGH|#|A.**\n\
    G|A.**|ABCDEFGH|#|A.**\n\
    D|A.&RACUID.&RACUID.&RACUID.&RACUID.&RACUID|JOE|G1|A.JOE.JOE.JOE.JOE.JOE\n\
    G|A.&RACUID.&RACUID.&RACUID.&RACUID.&RACUID|JOE|G1|A.JOE.JOE.JOE.JOE.JOE\n\
    D|A.&RACUID.&RACUID.&RACUID.&RACUID.&RACUID|9X|SYS1|none\n\
    G|A.&RACUID.&RACUID.&RACUID.&RACUID.&RACUID|9X|SYS1|A.9X.9X.9X.9X.9X\n\
    D|A.&RACUID.&RACUID.&RACUID.&RACUID.&RACUID|ABCDEFGH|#|none\n\
    G|A.&RACUID.&RACUID.&RACUID.&RACUID.&RACUID|ABCDEFGH|#|A.ABCDEFGH.ABCDEFGH.ABCDEFGH.ABCDEFGH.ABCDEFGH";

/// Names of general profiles, the more specific one first.
pub(crate) const IN_ORDER: &[u8] = b"SYS1.PARMLIB\n\
    SYS1.PARM%IB\n\
    SYS1.PARM.X\n\
    SYS1.PARM\n\
    SYS1.PARM*\n\
    SYS1.P%RM\n\
    SYS1.%ARM\n\
    SYS1.*\n\
    SYS1\n\
    SYS1.**\n\
    SYS%\n\
    SYS\n\
    SYS*\n\
    **";

/// A text, and its fault as a pattern, a resource and a member: of a data set, then in general.
pub(crate) const FAULTS: &[u8] = b"|EMPTY|EMPTY|EMPTY|EMPTY|EMPTY|EMPTY\n\
    .|EMPTYQUALIFIER 1|EMPTYQUALIFIER 1|EMPTYQUALIFIER 1|EMPTYQUALIFIER 1|EMPTYQUALIFIER 1|EMPTYQUALIFIER 1\n\
    A.|EMPTYQUALIFIER 2|EMPTYQUALIFIER 2|EMPTYQUALIFIER 2|EMPTYQUALIFIER 2|EMPTYQUALIFIER 2|EMPTYQUALIFIER 2\n\
    .A|EMPTYQUALIFIER 1|EMPTYQUALIFIER 1|EMPTYQUALIFIER 1|EMPTYQUALIFIER 1|EMPTYQUALIFIER 1|EMPTYQUALIFIER 1\n\
    A..B|EMPTYQUALIFIER 2|EMPTYQUALIFIER 2|EMPTYQUALIFIER 2|EMPTYQUALIFIER 2|EMPTYQUALIFIER 2|EMPTYQUALIFIER 2\n\
    A.BBBBBBBBB|QUALIFIERTOOLONG 2|QUALIFIERTOOLONG 2|QUALIFIERTOOLONG 2|OK|OK|OK\n\
    AAAAAAAAAAAAAAAAAAAAAAAAAAAAAAAAAAAAAAAAAAAAA|TOOLONG|TOOLONG|TOOLONG|OK|OK|OK\n\
    AAAAAAAAAAAAAAAAAAAAAAAAAAAAAAAAAAAAAAAAAAAAAAAAAAAAAAAAAAAAAAAAAAAAAAAAAAAAAAAAAAAAAAAAAAAAAAAAAAAAAAAAAAAAAAAAAAAAAAAAAAAAAAAAAAAAAAAAAAAAAAAAAAAAAAAAAAAAAAAAAAAAAAAAAAAAAAAAAAAAAAAAAAAAAAAAAAAAAAAAAAAAAAAAAAAAAAAAAAAAAAAAAAAAAAAAAAAAAAAAAAAAAAA|TOOLONG|TOOLONG|TOOLONG|TOOLONG|TOOLONG|TOOLONG\n\
    AAAAAAAAAAAAAAAAAAAAAAAAAAAAAAAAAAAAAAAAAAAAAAAAAAAAAAAAAAAAAAAAAAAAAAAAAAAAAAAAAAAAAAAAAAAAAAAAAAAAAAAAAAAAAAAAAAAAAAAAAAAAAAAAAAAAAAAAAAAAAAAAAAAAAAAAAAAAAAAAAAAAAAAAAAAAAAAAAAAAAAAAAAAAAAAAAAAAAAAAAAAAAAAAAAAAAAAAAAAAAAAAAAAAAAAAAAAAAAAAAAAAAA|TOOLONG|TOOLONG|TOOLONG|OK|OK|OK\n\
    1A|BADBYTE 1|BADBYTE 1|BADBYTE 1|OK|OK|OK\n\
    A.1B|BADBYTE 3|BADBYTE 3|BADBYTE 3|OK|OK|OK\n\
    A.-B|BADBYTE 3|BADBYTE 3|BADBYTE 3|OK|OK|OK\n\
    A-.B|OK|OK|OK|OK|OK|OK\n\
    A.B*C|STARINSIDE 4|BADBYTE 4|STARINSIDE 4|STARINSIDE 4|BADBYTE 4|STARINSIDE 4\n\
    A.***|STARINSIDE 3|BADBYTE 3|STARINSIDE 3|STARINSIDE 3|BADBYTE 3|STARINSIDE 3\n\
    ***|STARINSIDE 1|BADBYTE 1|STARINSIDE 1|STARINSIDE 1|BADBYTE 1|STARINSIDE 1\n\
    A%.B|GENERICFIRST|BADBYTE 2|GENERICFIRST|OK|BADBYTE 2|OK\n\
    *.B|GENERICFIRST|BADBYTE 1|GENERICFIRST|OK|BADBYTE 1|OK\n\
    **|GENERICFIRST|BADBYTE 1|GENERICFIRST|OK|BADBYTE 1|OK\n\
    A.**.**.B|OK|BADBYTE 3|OK|OK|BADBYTE 3|OK\n\
    A.&RACUID|BADBYTE 3|BADBYTE 3|OK|BADBYTE 3|BADBYTE 3|OK\n\
    &RACUID.X|BADBYTE 1|BADBYTE 1|OK|BADBYTE 1|BADBYTE 1|OK\n\
    A.&RACGPID.*|BADBYTE 3|BADBYTE 3|OK|BADBYTE 3|BADBYTE 3|OK\n\
    &RACUIDX|BADBYTE 1|BADBYTE 1|BADBYTE 1|BADBYTE 1|BADBYTE 1|BADBYTE 1\n\
    A B|BADBYTE 2|BADBYTE 2|BADBYTE 2|BADBYTE 2|BADBYTE 2|BADBYTE 2\n\
    A/B:C_D|BADBYTE 2|BADBYTE 2|BADBYTE 2|OK|OK|OK\n\
    A.b|BADBYTE 3|BADBYTE 3|BADBYTE 3|BADBYTE 3|BADBYTE 3|BADBYTE 3\n\
    %|GENERICFIRST|BADBYTE 1|GENERICFIRST|OK|BADBYTE 1|OK\n\
    A.%%%%%%%%%|QUALIFIERTOOLONG 2|QUALIFIERTOOLONG 2|QUALIFIERTOOLONG 2|OK|BADBYTE 3|OK\n\
    $X.A1|OK|OK|OK|OK|OK|OK\n\
    *.**.A.#.*|GENERICFIRST|BADBYTE 1|GENERICFIRST|OK|BADBYTE 1|OK\n\
    ABC.A1.A.@%.A1|OK|BADBYTE 11|OK|OK|BADBYTE 11|OK\n\
    **.$X|GENERICFIRST|BADBYTE 1|GENERICFIRST|OK|BADBYTE 1|OK\n\
    @9|OK|OK|OK|OK|OK|OK\n\
    X-Y*.*.AB|GENERICFIRST|BADBYTE 4|GENERICFIRST|OK|BADBYTE 4|OK\n\
    AB|OK|OK|OK|OK|OK|OK\n\
    A.@9.A%|OK|BADBYTE 7|OK|OK|BADBYTE 7|OK\n\
    **.X-Y.**.**|GENERICFIRST|BADBYTE 1|GENERICFIRST|OK|BADBYTE 1|OK\n\
    $%|GENERICFIRST|BADBYTE 2|GENERICFIRST|OK|BADBYTE 2|OK\n\
    $X.**.ABC.A|OK|BADBYTE 4|OK|OK|BADBYTE 4|OK\n\
    B%.*|GENERICFIRST|BADBYTE 2|GENERICFIRST|OK|BADBYTE 2|OK\n\
    AB.@%.**|OK|BADBYTE 5|OK|OK|BADBYTE 5|OK\n\
    *|GENERICFIRST|BADBYTE 1|GENERICFIRST|OK|BADBYTE 1|OK\n\
    **.$X.AB.*|GENERICFIRST|BADBYTE 1|GENERICFIRST|OK|BADBYTE 1|OK\n\
    A1.$%|OK|BADBYTE 5|OK|OK|BADBYTE 5|OK\n\
    $X.@9*.*|OK|BADBYTE 6|OK|OK|BADBYTE 6|OK\n\
    #.*|OK|BADBYTE 3|OK|OK|BADBYTE 3|OK\n\
    *.**.*|GENERICFIRST|BADBYTE 1|GENERICFIRST|OK|BADBYTE 1|OK\n\
    A%.A%.@9.X-*|GENERICFIRST|BADBYTE 2|GENERICFIRST|OK|BADBYTE 2|OK\n\
    *.**|GENERICFIRST|BADBYTE 1|GENERICFIRST|OK|BADBYTE 1|OK\n\
    ABCDEFGH.ABCDEFGH|OK|OK|OK|OK|OK|OK\n\
    ABC.**|OK|BADBYTE 5|OK|OK|BADBYTE 5|OK\n\
    #%.**.ABC.#%|GENERICFIRST|BADBYTE 2|GENERICFIRST|OK|BADBYTE 2|OK\n\
    *.*.#%.*.*|GENERICFIRST|BADBYTE 1|GENERICFIRST|OK|BADBYTE 1|OK\n\
    $X.@9.B.A.**|OK|BADBYTE 11|OK|OK|BADBYTE 11|OK\n\
    A%CDEFGH.A1|GENERICFIRST|BADBYTE 2|GENERICFIRST|OK|BADBYTE 2|OK\n\
    A1.B.ABCDEFGH.*.A%CDEFGH|OK|BADBYTE 15|OK|OK|BADBYTE 15|OK\n\
    A*.AB.ABC|GENERICFIRST|BADBYTE 2|GENERICFIRST|OK|BADBYTE 2|OK\n\
    **.#%.**|GENERICFIRST|BADBYTE 1|GENERICFIRST|OK|BADBYTE 1|OK\n\
    @9.**|OK|BADBYTE 4|OK|OK|BADBYTE 4|OK\n\
    ABC.**.ABCDEFGH.A1.*|OK|BADBYTE 5|OK|OK|BADBYTE 5|OK\n\
    X-Y.#.A.*.**|OK|BADBYTE 9|OK|OK|BADBYTE 9|OK\n\
    **.**.X-Y.ABCDEFGH|GENERICFIRST|BADBYTE 1|GENERICFIRST|OK|BADBYTE 1|OK\n\
    **.*.ABCDEFGH.A|GENERICFIRST|BADBYTE 1|GENERICFIRST|OK|BADBYTE 1|OK\n\
    A1.**|OK|BADBYTE 4|OK|OK|BADBYTE 4|OK\n\
    B%.#*.X-Y|GENERICFIRST|BADBYTE 2|GENERICFIRST|OK|BADBYTE 2|OK\n\
    @9.**.@9|OK|BADBYTE 4|OK|OK|BADBYTE 4|OK\n\
    **.B|GENERICFIRST|BADBYTE 1|GENERICFIRST|OK|BADBYTE 1|OK\n\
    A1.**.X-Y.**.**|OK|BADBYTE 4|OK|OK|BADBYTE 4|OK\n\
    **.A1.#|GENERICFIRST|BADBYTE 1|GENERICFIRST|OK|BADBYTE 1|OK\n\
    A%.X%Y.B.ABCDEFGH.**|GENERICFIRST|BADBYTE 2|GENERICFIRST|OK|BADBYTE 2|OK\n\
    A1|OK|OK|OK|OK|OK|OK\n\
    #%|GENERICFIRST|BADBYTE 2|GENERICFIRST|OK|BADBYTE 2|OK\n\
    **.AB.ABCDEFGH|GENERICFIRST|BADBYTE 1|GENERICFIRST|OK|BADBYTE 1|OK\n\
    #.A%CDEFGH.X-Y*.#.AB|OK|BADBYTE 4|OK|OK|BADBYTE 4|OK\n\
    **.*.A*|GENERICFIRST|BADBYTE 1|GENERICFIRST|OK|BADBYTE 1|OK\n\
    $X.**|OK|BADBYTE 4|OK|OK|BADBYTE 4|OK\n\
    $X.$X.*.AB.B|OK|BADBYTE 7|OK|OK|BADBYTE 7|OK\n\
    ABC.@9.#.ABCDEFGH|OK|OK|OK|OK|OK|OK\n\
    **.#.#.*|GENERICFIRST|BADBYTE 1|GENERICFIRST|OK|BADBYTE 1|OK\n\
    X-Y.*.ABC.ABC|OK|BADBYTE 5|OK|OK|BADBYTE 5|OK\n\
    *.**.A|GENERICFIRST|BADBYTE 1|GENERICFIRST|OK|BADBYTE 1|OK\n\
    *.*.B.*.A%CDEFGH|GENERICFIRST|BADBYTE 1|GENERICFIRST|OK|BADBYTE 1|OK\n\
    *.A..*.X-Y|GENERICFIRST|BADBYTE 1|GENERICFIRST|EMPTYQUALIFIER 3|BADBYTE 1|EMPTYQUALIFIER 3\n\
    A&C.ABCDEFGH.*.ABC.**|BADBYTE 2|BADBYTE 2|BADBYTE 2|BADBYTE 2|BADBYTE 2|BADBYTE 2\n\
    @9.$X.@9|OK|OK|OK|OK|OK|OK\n\
    1.A1|BADBYTE 1|BADBYTE 1|BADBYTE 1|OK|OK|OK\n\
    A.#|OK|OK|OK|OK|OK|OK\n\
    $*.@9|GENERICFIRST|BADBYTE 2|GENERICFIRST|OK|BADBYTE 2|OK\n\
    A|OK|OK|OK|OK|OK|OK\n\
    #.#.A%|OK|BADBYTE 6|OK|OK|BADBYTE 6|OK\n\
    **.**.*|GENERICFIRST|BADBYTE 1|GENERICFIRST|OK|BADBYTE 1|OK\n\
    *.A*.**|GENERICFIRST|BADBYTE 1|GENERICFIRST|OK|BADBYTE 1|OK\n\
    *.A1CDEFGH.A|GENERICFIRST|BADBYTE 1|GENERICFIRST|OK|BADBYTE 1|OK\n\
    @9.X-Y.@9.X-Y.-|BADBYTE 15|BADBYTE 15|BADBYTE 15|OK|OK|OK\n\
    **.*.**.*.*|GENERICFIRST|BADBYTE 1|GENERICFIRST|OK|BADBYTE 1|OK\n\
    @9.**.$X*|OK|BADBYTE 4|OK|OK|BADBYTE 4|OK\n\
    A!CDEFGH.A1.ABCDEFGH|BADBYTE 2|BADBYTE 2|BADBYTE 2|BADBYTE 2|BADBYTE 2|BADBYTE 2\n\
    *.**.**.#|GENERICFIRST|BADBYTE 1|GENERICFIRST|OK|BADBYTE 1|OK\n\
    **.A!CDEFGH.**|GENERICFIRST|BADBYTE 1|GENERICFIRST|BADBYTE 5|BADBYTE 1|BADBYTE 5\n\
    @9.!.#|BADBYTE 4|BADBYTE 4|BADBYTE 4|BADBYTE 4|BADBYTE 4|BADBYTE 4\n\
    @9.A.A..C|EMPTYQUALIFIER 4|EMPTYQUALIFIER 4|EMPTYQUALIFIER 4|EMPTYQUALIFIER 4|EMPTYQUALIFIER 4|EMPTYQUALIFIER 4\n\
    *.B%.$X|GENERICFIRST|BADBYTE 1|GENERICFIRST|OK|BADBYTE 1|OK\n\
    *.**.$X|GENERICFIRST|BADBYTE 1|GENERICFIRST|OK|BADBYTE 1|OK\n\
    #.@9.**|OK|BADBYTE 6|OK|OK|BADBYTE 6|OK\n\
    X-Y....**.*.**|EMPTYQUALIFIER 2|EMPTYQUALIFIER 2|EMPTYQUALIFIER 2|EMPTYQUALIFIER 2|EMPTYQUALIFIER 2|EMPTYQUALIFIER 2\n\
    #.#|OK|OK|OK|OK|OK|OK\n\
    X-Y.@9|OK|OK|OK|OK|OK|OK\n\
    A..CDEFGH.ABCDEFGH.$X|EMPTYQUALIFIER 2|EMPTYQUALIFIER 2|EMPTYQUALIFIER 2|EMPTYQUALIFIER 2|EMPTYQUALIFIER 2|EMPTYQUALIFIER 2\n\
    #.@9.A|OK|OK|OK|OK|OK|OK\n\
    A.*|OK|BADBYTE 3|OK|OK|BADBYTE 3|OK\n\
    $X.*|OK|BADBYTE 4|OK|OK|BADBYTE 4|OK\n\
    A1.X-Y.A1CDEFGH|OK|OK|OK|OK|OK|OK\n\
    $*.A.A%|GENERICFIRST|BADBYTE 2|GENERICFIRST|OK|BADBYTE 2|OK\n\
    A*C.**.A1|STARINSIDE 2|BADBYTE 2|STARINSIDE 2|STARINSIDE 2|BADBYTE 2|STARINSIDE 2\n\
    *.A1.**....ABCDEFGH|GENERICFIRST|BADBYTE 1|GENERICFIRST|EMPTYQUALIFIER 4|BADBYTE 1|EMPTYQUALIFIER 4\n\
    A1*.**.A!CDEFGH|GENERICFIRST|BADBYTE 3|GENERICFIRST|BADBYTE 9|BADBYTE 3|BADBYTE 9\n\
    A.A1.@9|OK|OK|OK|OK|OK|OK\n\
    **.A1CD*.X%Y.*|GENERICFIRST|BADBYTE 1|GENERICFIRST|OK|BADBYTE 1|OK\n\
    -.#|BADBYTE 1|BADBYTE 1|BADBYTE 1|OK|OK|OK\n\
    A..C.$X.A1.#.X-Y|EMPTYQUALIFIER 2|EMPTYQUALIFIER 2|EMPTYQUALIFIER 2|EMPTYQUALIFIER 2|EMPTYQUALIFIER 2|EMPTYQUALIFIER 2\n\
    $X*.#.1.ABCDEFGH.**|GENERICFIRST|BADBYTE 3|GENERICFIRST|OK|BADBYTE 3|OK\n\
    A1.X-Y.A..|EMPTYQUALIFIER 4|EMPTYQUALIFIER 4|EMPTYQUALIFIER 4|EMPTYQUALIFIER 4|EMPTYQUALIFIER 4|EMPTYQUALIFIER 4\n\
    **....**.ABC.A1*|GENERICFIRST|BADBYTE 1|GENERICFIRST|EMPTYQUALIFIER 2|BADBYTE 1|EMPTYQUALIFIER 2\n\
    A!C.A|BADBYTE 2|BADBYTE 2|BADBYTE 2|BADBYTE 2|BADBYTE 2|BADBYTE 2\n\
    *.A|GENERICFIRST|BADBYTE 1|GENERICFIRST|OK|BADBYTE 1|OK\n\
    A&CDEFGH.#|BADBYTE 2|BADBYTE 2|BADBYTE 2|BADBYTE 2|BADBYTE 2|BADBYTE 2\n\
    A1.$X.@9|OK|OK|OK|OK|OK|OK\n\
    -.A.A.@9.ABC|BADBYTE 1|BADBYTE 1|BADBYTE 1|OK|OK|OK\n\
    X-Y.A*CDEFGH.B.ABCDEFGH|STARINSIDE 6|BADBYTE 6|STARINSIDE 6|STARINSIDE 6|BADBYTE 6|STARINSIDE 6\n\
    $X.X-Y|OK|OK|OK|OK|OK|OK\n\
    *.#.*.$X|GENERICFIRST|BADBYTE 1|GENERICFIRST|OK|BADBYTE 1|OK\n\
    *.*.A!|GENERICFIRST|BADBYTE 1|GENERICFIRST|BADBYTE 6|BADBYTE 1|BADBYTE 6\n\
    #.#%.A.**|OK|BADBYTE 4|OK|OK|BADBYTE 4|OK\n\
    A..CDEFGH.ABCDEFGH.ABCDEFGH|EMPTYQUALIFIER 2|EMPTYQUALIFIER 2|EMPTYQUALIFIER 2|EMPTYQUALIFIER 2|EMPTYQUALIFIER 2|EMPTYQUALIFIER 2\n\
    A1C.A1.AB.$X.@9|OK|OK|OK|OK|OK|OK\n\
    A1.$X.ABCDEFGH|OK|OK|OK|OK|OK|OK\n\
    A!C|BADBYTE 2|BADBYTE 2|BADBYTE 2|BADBYTE 2|BADBYTE 2|BADBYTE 2\n\
    A.#.A..CDEFGH.$X.A|EMPTYQUALIFIER 4|EMPTYQUALIFIER 4|EMPTYQUALIFIER 4|EMPTYQUALIFIER 4|EMPTYQUALIFIER 4|EMPTYQUALIFIER 4\n\
    @9.A1.A&CDEFGH.AB|BADBYTE 8|BADBYTE 8|BADBYTE 8|BADBYTE 8|BADBYTE 8|BADBYTE 8\n\
    ...A1.B|EMPTYQUALIFIER 1|EMPTYQUALIFIER 1|EMPTYQUALIFIER 1|EMPTYQUALIFIER 1|EMPTYQUALIFIER 1|EMPTYQUALIFIER 1\n\
    -.**.**.*|BADBYTE 1|BADBYTE 1|BADBYTE 1|OK|BADBYTE 3|OK\n\
    !.B|BADBYTE 1|BADBYTE 1|BADBYTE 1|BADBYTE 1|BADBYTE 1|BADBYTE 1\n\
    A-|OK|OK|OK|OK|OK|OK\n\
    #.A!C.$X.A.A1|BADBYTE 4|BADBYTE 4|BADBYTE 4|BADBYTE 4|BADBYTE 4|BADBYTE 4\n\
    A..C.B.A.ABCDEFGH|EMPTYQUALIFIER 2|EMPTYQUALIFIER 2|EMPTYQUALIFIER 2|EMPTYQUALIFIER 2|EMPTYQUALIFIER 2|EMPTYQUALIFIER 2\n\
    #|OK|OK|OK|OK|OK|OK\n\
    A*.ABCDEFGH.B.#.ABC|GENERICFIRST|BADBYTE 2|GENERICFIRST|OK|BADBYTE 2|OK\n\
    A!CDEFGH.A1.#|BADBYTE 2|BADBYTE 2|BADBYTE 2|BADBYTE 2|BADBYTE 2|BADBYTE 2\n\
    **.A1CDEFG*|GENERICFIRST|BADBYTE 1|GENERICFIRST|OK|BADBYTE 1|OK\n\
    A...@9.@9.ABCDEFGH.B|EMPTYQUALIFIER 2|EMPTYQUALIFIER 2|EMPTYQUALIFIER 2|EMPTYQUALIFIER 2|EMPTYQUALIFIER 2|EMPTYQUALIFIER 2\n\
    A-C.$X.$X.A|OK|OK|OK|OK|OK|OK\n\
    A-C.**.$X.**|OK|BADBYTE 5|OK|OK|BADBYTE 5|OK\n\
    $X.!.X-Y.@9.A1|BADBYTE 4|BADBYTE 4|BADBYTE 4|BADBYTE 4|BADBYTE 4|BADBYTE 4\n\
    *.**.A%CDEFGH.**.A*C*|GENERICFIRST|BADBYTE 1|GENERICFIRST|STARINSIDE 19|BADBYTE 1|STARINSIDE 19\n\
    A1.#.A..CDEFGH.A1|EMPTYQUALIFIER 4|EMPTYQUALIFIER 4|EMPTYQUALIFIER 4|EMPTYQUALIFIER 4|EMPTYQUALIFIER 4|EMPTYQUALIFIER 4\n\
    **.A%|GENERICFIRST|BADBYTE 1|GENERICFIRST|OK|BADBYTE 1|OK\n\
    *.*.**.X-Y.A%CDEFGH|GENERICFIRST|BADBYTE 1|GENERICFIRST|OK|BADBYTE 1|OK\n\
    A1.X-Y.X-Y|OK|OK|OK|OK|OK|OK\n\
    @9.A.A|OK|OK|OK|OK|OK|OK\n\
    A*C.A|STARINSIDE 2|BADBYTE 2|STARINSIDE 2|STARINSIDE 2|BADBYTE 2|STARINSIDE 2\n\
    **.X-Y*.A1CDEFGH.**.A|GENERICFIRST|BADBYTE 1|GENERICFIRST|OK|BADBYTE 1|OK\n\
    $X.A|OK|OK|OK|OK|OK|OK\n\
    A1CDEFGH.X-Y.#.X-Y|OK|OK|OK|OK|OK|OK\n\
    **.$%|GENERICFIRST|BADBYTE 1|GENERICFIRST|OK|BADBYTE 1|OK\n\
    A-CDEFGH.$X|OK|OK|OK|OK|OK|OK\n\
    X-Y.A.A1C|OK|OK|OK|OK|OK|OK\n\
    $X.1|BADBYTE 4|BADBYTE 4|BADBYTE 4|OK|OK|OK\n\
    #.$X.A&CDEFGH|BADBYTE 7|BADBYTE 7|BADBYTE 7|BADBYTE 7|BADBYTE 7|BADBYTE 7\n\
    A..|EMPTYQUALIFIER 2|EMPTYQUALIFIER 2|EMPTYQUALIFIER 2|EMPTYQUALIFIER 2|EMPTYQUALIFIER 2|EMPTYQUALIFIER 2\n\
    A1.A.#|OK|OK|OK|OK|OK|OK\n\
    &.@9|BADBYTE 1|BADBYTE 1|BADBYTE 1|BADBYTE 1|BADBYTE 1|BADBYTE 1\n\
    $X.A1.A1.A.A1|OK|OK|OK|OK|OK|OK\n\
    **.**.**|GENERICFIRST|BADBYTE 1|GENERICFIRST|OK|BADBYTE 1|OK\n\
    #.A1.X-Y|OK|OK|OK|OK|OK|OK\n\
    *.X-Y.A%|GENERICFIRST|BADBYTE 1|GENERICFIRST|OK|BADBYTE 1|OK\n\
    A.A1C.$X.B.A1|OK|OK|OK|OK|OK|OK\n\
    X-Y.*|OK|BADBYTE 5|OK|OK|BADBYTE 5|OK\n\
    X-Y.-.ABCDEFGH|BADBYTE 5|BADBYTE 5|BADBYTE 5|OK|OK|OK\n\
    1*|BADBYTE 1|BADBYTE 1|BADBYTE 1|OK|BADBYTE 2|OK\n\
    &.A|BADBYTE 1|BADBYTE 1|BADBYTE 1|BADBYTE 1|BADBYTE 1|BADBYTE 1\n\
    A..C.AB.B|EMPTYQUALIFIER 2|EMPTYQUALIFIER 2|EMPTYQUALIFIER 2|EMPTYQUALIFIER 2|EMPTYQUALIFIER 2|EMPTYQUALIFIER 2\n\
    **.A-*.$X|GENERICFIRST|BADBYTE 1|GENERICFIRST|OK|BADBYTE 1|OK\n\
    X-Y.A.A1.#|OK|OK|OK|OK|OK|OK\n\
    X-Y.A&.@9.X-Y|BADBYTE 6|BADBYTE 6|BADBYTE 6|BADBYTE 6|BADBYTE 6|BADBYTE 6\n\
    A*.B|GENERICFIRST|BADBYTE 2|GENERICFIRST|OK|BADBYTE 2|OK\n\
    $X.A&CDEFGH|BADBYTE 5|BADBYTE 5|BADBYTE 5|BADBYTE 5|BADBYTE 5|BADBYTE 5\n\
    X-Y.A.A|OK|OK|OK|OK|OK|OK\n\
    **.X-Y|GENERICFIRST|BADBYTE 1|GENERICFIRST|OK|BADBYTE 1|OK";
